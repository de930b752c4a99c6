//! Ranges of the records of a file.
use crate::cases::{Script, first_wrong, none_is};

// Five chunks.
const BEFORE: &str = "\
head 2 0 0 1280
records 2 0 0 1280
put a
room z
write a z 256 0 2
";

// Of 1,280 records in five chunks of 2,654, 2,644, 2,659, 2,657 and 2,653 bytes: all, none, one, a chunk, a chunk and
// its neighbours, parts of one and of three chunks, and places past the end; each with a number of workers. Of a packed
// file, of fixed and of counted chunks, no more is asked for than the bound of opening, 696, and the bytes of the
// chunks that meet the range; and of a plain one 454 and those of the records. If the third chunk is bad, it is named
// by its number in the file if it meets the range, after the records before it, and else it is nothing to the range.
const CASES: &str = "\
case ranges are parts
take z
set 293 FF FF FF FF
length 13596
add 00 00 00 00 05 00 00 00 45 CA C7 ED 7C 95 AC 27 6D 8E 2F 6C 00 00
put y
range a 8 0 1280 26054 ok a 227 25827
range z 8 0 1280 13963 ok a 227 25827
range y 8 0 1280 13963 ok a 227 25827
range a 1 0 0 454 ok a 227 227
range z 1 0 0 696 ok a 227 227
range y 1 0 0 696 ok a 227 227
range a 8 700 700 454 ok a 14227 14227
range z 8 700 700 696 ok a 14227 14227
range y 8 700 700 696 ok a 14227 14227
range a 1 0 1 474 ok a 227 247
range z 1 0 1 3350 ok a 227 247
range y 1 0 1 3350 ok a 227 247
range a 8 256 512 5574 ok a 5347 10467
range z 8 256 512 3340 ok a 5347 10467
range y 8 256 512 3340 ok a 5347 10467
range a 1 255 513 5614 ok a 5327 10487
range z 1 255 513 8653 ok a 5327 10487
range y 1 255 513 8653 ok a 5327 10487
range a 8 300 400 2454 ok a 6227 8227
range z 8 300 400 3340 ok a 6227 8227
range y 8 300 400 3340 ok a 6227 8227
range a 8 300 1000 14454 ok a 6227 20227
range z 8 300 1000 8656 ok a 6227 20227
range y 8 300 1000 8656 ok a 6227 20227
range a 8 511 513 494 ok a 10447 10487
range z 8 511 513 5999 ok a 10447 10487
range y 8 511 513 5999 ok a 10447 10487
range a 1 1279 1280 474 ok a 25807 25827
range z 1 1279 1280 3349 ok a 25807 25827
range y 1 1279 1280 3349 ok a 25807 25827
range a 1 1000 4294967295 6054 ok a 20227 25827
range z 1 1000 4294967295 6006 ok a 20227 25827
range y 1 1000 4294967295 6006 ok a 20227 25827
range a 8 2000 3000 454 ok a 25827 25827
range z 8 2000 3000 696 ok a 25827 25827
range y 8 2000 3000 696 ok a 25827 25827

case a bad chunk beside a range
take z
set 5647 FF FF FF FF
put bad
range bad 1 100 512 5994 ok a 2227 10467
range bad 1 768 1280 6006 ok a 15587 25827
range bad 1 512 512 696 ok a 10467 10467
range bad 1 300 513 5999 BadChunk:2 a 6227 10467
range bad 1 600 601 3355 BadChunk:2 a 12227 12227
range bad 1 767 1280 8665 BadChunk:2 a 15567 15567
range bad 1 0 1280 13963 BadChunk:2 a 227 10467
read bad 1 BadChunk:2 a 227 10467
range bad 8 100 512 5994 ok a 2227 10467
range bad 8 768 1280 6006 ok a 15587 25827
range bad 8 512 512 696 ok a 10467 10467
range bad 8 300 513 5999 BadChunk:2 a 6227 10467
range bad 8 600 601 3355 BadChunk:2 a 12227 12227
range bad 8 767 1280 8665 BadChunk:2 a 15567 15567
range bad 8 0 1280 13963 BadChunk:2 a 227 10467
read bad 8 BadChunk:2 a 227 10467
";

const RANGES: Script = Script {
    before: BEFORE,
    cases: CASES,
    after: "",
};

#[test]
fn ranges_are_read(rt: HostRuntime) {
    none_is(first_wrong(&rt, rt.alloc(), &RANGES), &rt);
}
