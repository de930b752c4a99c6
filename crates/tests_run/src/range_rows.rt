//! `las2las` over a range of records.
use crate::cases::{Script, plays};

// 1,000 records, plain and packed.
const BEFORE: &str = "\
head 2 0 0 1000
records 2 0 0 0 1000
put a
packed
put az
";

// An empty range, and one past the end, have no record; one that passes the end is cut there.
const CASES: &str = "\
case 600 to 600
with -start_at_point 600 -stop_at_point 600
head 2 0 0 0
put w

case from 2000
with -start_at_point 2000
head 2 0 0 0
put w

case to 0
with -stop_at_point 0
head 2 0 0 0
put w

case from 1000
with -start_at_point 1000
head 2 0 0 0
put w

case from 999
with -start_at_point 999
head 2 0 0 1
records 2 0 0 999 1000
put w

case 990 to 2^32 - 1
with -start_at_point 990 -stop_at_point 4294967295
head 2 0 0 10
records 2 0 0 990 1000
put w

case to 256
with -stop_at_point 256
head 2 0 0 256
records 2 0 0 0 256
put w

case 256 to 257
with -start_at_point 256 -stop_at_point 257
head 2 0 0 1
records 2 0 0 256 257
put w

case 255 to 769
with -start_at_point 255 -stop_at_point 769
head 2 0 0 514
records 2 0 0 255 769
put w
";

// Of a plain file and of a packed one.
const AFTER: &str = "\
room b c
done las2las -i a -o b @
done las2las -i az -o c @
same b w
same c w
";

const RANGES: Script = Script {
    before: BEFORE,
    cases: CASES,
    after: AFTER,
};

// Of a packed input only the chunks that have some of the records are read, and the others may be bad: the second chunk
// begins at byte 1,657, the third at 2,987, and the last at 4,317. Places are counted before the filters.
const OTHER_CASES: &str = "\
case records in the middle
with -start_at_point 300 -stop_at_point 600
take az
set 349 FF FF FF FF
put bad
head 2 0 0 300
records 2 0 0 300 600
put w
room b c d e f
done las2las -i az -o b @ -cores 1
done las2las -i az -o c @ -cores 8
done las2las -i a -o d @ -cores 1
done las2las -i a -o e @ -cores 8
done las2las -i bad -o f @
same b w
same c w
same d w
same e w
same f w

case all, and a stop before the start
room b c
done las2las -i a -o b
done las2las -i az -o c
ends usage: word 8/ = las2las -i az -o c -start_at_point 5 -stop_at_point 4
same b a
same c a

case a range before the filters
with -keep_class 2 -translate_raw_x 1 -chunk_size 256 -cores 2
head 2 0 0 300
records 2 0 0 200 500
put m
room b.laz c.laz
done las2las -i az -o b.laz -start_at_point 200 -stop_at_point 500 @
done las2las -i m -o c.laz @
same b.laz c.laz

case a bad chunk
take az
set 3007 FF FF FF FF
put bad
room b
ends refused: bad: 21 BadChunk 2/ = las2las -i bad -o b -start_at_point 300
ends refused: bad: 21 BadChunk 2/ = las2las -i bad -o b -start_at_point 600 -stop_at_point 601
done las2las -i bad -o b -start_at_point 300 -stop_at_point 512
done las2las -i bad -o b -start_at_point 768
";

const OTHER_RANGES: Script = Script {
    before: BEFORE,
    cases: OTHER_CASES,
    after: "",
};

#[test]
fn ranges(rt: HostRuntime) {
    plays(&rt, &RANGES);
    plays(&rt, &OTHER_RANGES);
}
