//! `laszip`: files packed and unpacked, with bytes worked out by hand, and inputs that are refused.
use crate::cases::{Script, plays};

// A file of one record and its packed form, the head of this, and a file of LAS 1.4.
const BEFORE: &str = "\
head 2 0 0 1
add 05 00 00 00 06 00 00 00 07 00 00 00 00 00 09 00 00 00 00 00
put one
head 2 0 0 1
set 96 41 01 00 00 01 00 00 00 80
add 00 00 6C 61 73 7A 69 70 20 65 6E 63 6F 64 65 64 00 00 BC 56 28 00 6C 61 73 7A 69 70 20 76 65 72
add 73 69 6F 6E 20 32 20 69 74 65 6D 73 00 00 00 00 00 00 00 00 00 00 02 00 00 00 02 02 00 00 00 00
add 00 00 50 C3 00 00 FF FF FF FF FF FF FF FF FF FF FF FF FF FF FF FF 01 00 06 00 14 00 02 00
put head
add 61 01 00 00 00 00 00 00 05 00 00 00 06 00 00 00 07 00 00 00 00 00 09 00 00 00 00 00 01 00 00 00
add 00 00 00 00 01 00 00 00 2C 5C 00 00 00
put form
head 4 0 0 1
add 05 00 00 00 06 00 00 00 07 00 00 00 00 00 09 00 00 00 00 00
put new
";

// Inputs that are refused when they are opened.
const REFUSED: &str = "\
case a byte after the records
take one
add 00
put a
room b
ends refused: a: 10 Trailing/ = laszip -i a -o b
ends refused: a: 10 Trailing/ = las2las -i a -o b -keep_first
absent b

case a record that is cut
take one
cut 246
put a
room b
ends refused: a: 9 Count/ = laszip -i a -o b
ends refused: a: 9 Count/ = las2las -i a -o b -keep_first
absent b

case a laszip VLR in a plain file
take head
set 104 00
add 05 00 00 00 06 00 00 00 07 00 00 00 00 00 09 00 00 00 00 00
put a
room b
ends refused: a: 11 StrayVlr/ = laszip -i a -o b
ends refused: a: 11 StrayVlr/ = las2las -i a -o b -keep_first
absent b

case points past the end
take one
set 96 91 FF FF 00
put a
room b
ends refused: a: 5 Offset/ = laszip -i a -o b
ends refused: a: 5 Offset/ = las2las -i a -o b -keep_first
absent b

case no bytes
cut 0
put a
room b
ends refused: a: 1 Short/ = laszip -i a -o b
ends refused: a: 1 Short/ = las2las -i a -o b -keep_first
absent b

case version 1.5
take one
set 25 05
put a
room b
ends refused: a: 3 Version/ = laszip -i a -o b
ends refused: a: 3 Version/ = las2las -i a -o b -keep_first
absent b

case another signature
take one
set 0 4D
put a
room b
ends refused: a: 2 Magic/ = laszip -i a -o b
ends refused: a: 2 Magic/ = las2las -i a -o b -keep_first
absent b

case a header that is too small
take one
set 94 E2
put a
room b
ends refused: a: 4 HeaderSize/ = laszip -i a -o b
ends refused: a: 4 HeaderSize/ = las2las -i a -o b -keep_first
absent b

case a table that is cut
take form
cut 354
put a
room b
ends refused: a: 19 Table/ = laszip -i a -o b
ends refused: a: 19 Table/ = las2las -i a -o b -keep_first
absent b

case a table of two chunks
take form
set 357 02
put a
room b
ends refused: a: 19 Table/ = laszip -i a -o b
ends refused: a: 19 Table/ = las2las -i a -o b -keep_first
absent b

case 2^24 + 1 points in chunks of one
take head
set 107 01 00 00 01 01 00 00 01
set 293 01 00 00 00
add 49 01 00 00 00 00 00 00 00 00 00 00 00 00 00 00
put a
room b
ends refused: a: 17 TooManyChunks/ = laszip -i a -o b
ends refused: a: 17 TooManyChunks/ = las2las -i a -o b -keep_first
absent b

case chunks of no point
take head
set 293 00 00 00 00
add 49 01 00 00 00 00 00 00 00 00 00 00 00 00 00 00
put a
room b
ends refused: a: 16 ChunkSize/ = laszip -i a -o b
ends refused: a: 16 ChunkSize/ = las2las -i a -o b -keep_first
absent b

case two points in counted chunks of one
take form
set 107 02 00 00 00 02 00 00 00
set 293 FF FF FF FF
cut 353
add 00 00 00 00 01 00 00 00 04 8B D3 00 00 00
put a
room b
ends refused: a: 24 PointSum/ = laszip -i a -o b
ends refused: a: 24 PointSum/ = las2las -i a -o b -keep_first
absent b

case two counted chunks in a table of one
take form
set 293 FF FF FF FF
cut 353
add 00 00 00 00 02 00 00 00 04 8B D3 00 00 00
put a
room b
ends refused: a: 19 Table/ = laszip -i a -o b
ends refused: a: 19 Table/ = las2las -i a -o b -keep_first
absent b

case two numbers of points
take new
set 247 02
put a
room b
ends refused: a: 26 PointCounts/ = laszip -i a -o b
ends refused: a: 26 PointCounts/ = las2las -i a -o b -keep_first
absent b

case extended VLRs
take new
set 243 01
put a
room b
ends refused: a: 25 Extended/ = laszip -i a -o b
ends refused: a: 25 Extended/ = las2las -i a -o b -keep_first
absent b

case a header of LAS 1.4 that is too small
take new
set 94 76
put a
room b
ends refused: a: 4 HeaderSize/ = laszip -i a -o b
ends refused: a: 4 HeaderSize/ = las2las -i a -o b -keep_first
absent b

case a pointer before the points
take head
set 321 40
put a
room b
ends refused: a: 18 TablePointer/ = laszip -i a -o b
ends refused: a: 18 TablePointer/ = las2las -i a -o b -keep_first
absent b
";

const REFUSED_INPUTS: Script = Script {
    before: BEFORE,
    cases: REFUSED,
    after: "",
};

const CASES: &str = "\
case the smallest files
head 2 0 0 0
put none
take head
set 107 00 00 00 00 00 00 00 00
add 49 01 00 00 00 00 00 00 00 00 00 00 00 00 00 00
put none.form
take form
set 321 FF FF FF FF FF FF FF FF
add 61 01 00 00 00 00 00 00
put last
take form
set 293 FF FF FF FF
cut 353
add 00 00 00 00 01 00 00 00 04 8B D3 00 00 00
put counted
room b c d e f g h
done laszip -i one -o b
done laszip -i form -o c
done laszip -i none -o d
done laszip -i none.form -o e
done laszip -i form -o f -chunk_size 300 -cores 8
done laszip -i last -o g
done laszip -i counted -o h
size form 366
size none.form 337
size last 374
size counted 367
same b form
same c one
same d none.form
same e none
same f one
same g one
same h one

case wrong words, and an input that is not there
take one
put a
room b
ends usage: word 6/ = laszip -i a -o b -chunk_size 0
ends usage: word 4/ = laszip -i a -o a
ends usage: word 3/ = laszip -i a
ends usage: word 6/ = laszip -i a -o b -cores 9
ends usage: word 0/ = 
ends usage: word 6/ = las2las -i a -o b -keep_class 32
ends usage: word 0/ = lasunzip -i a
ends read fault: none.las/ = laszip -i none.las -o b
ends read fault: none.las/ = las2las -i none.las -o b
absent b

case LAS 1.4 with the older count
take new
put a
room b c
done laszip -i a -o b
done laszip -i b -o c
size a 395
size b 514
has b 96 D5 01 00 00
has b 469 F5 01 00 00
same c a

case LAS 1.4 without the older count
take new
set 107 00
put a
room b c
done laszip -i a -o b
done laszip -i b -o c
size a 395
size b 514
has b 96 D5 01 00 00
has b 469 F5 01 00 00
same c a

case 50,000 points a chunk
head 2 0 0 50000
zeros 1000000
put a
head 2 0 0 50001
zeros 1000020
put c
room b d
done laszip -i a -o b
done laszip -i c -o d
has b 321 9B 02 00 00
has b 671 01 00 00 00
has d 321 B3 02 00 00
has d 695 02 00 00 00

case LAS 1.0, format 0
head 0 0 5 600
records 0 0 5 0 600
put a
room b c d
done laszip -i a -o b -chunk_size 256
done laszip -cores 8 -chunk_size 256 -o c -i a
done laszip -i b -o d -cores 2
same b c
same d a

case LAS 1.1, format 1
head 1 1 5 600
records 1 1 5 0 600
put a
room b c d
done laszip -i a -o b -chunk_size 256
done laszip -cores 8 -chunk_size 256 -o c -i a
done laszip -i b -o d -cores 2
same b c
same d a

case LAS 1.2, format 2
head 2 2 5 600
records 2 2 5 0 600
put a
room b c d
done laszip -i a -o b -chunk_size 256
done laszip -cores 8 -chunk_size 256 -o c -i a
done laszip -i b -o d -cores 2
same b c
same d a

case LAS 1.3, format 3
head 3 3 5 600
records 3 3 5 0 600
put a
room b c d
done laszip -i a -o b -chunk_size 256
done laszip -cores 8 -chunk_size 256 -o c -i a
done laszip -i b -o d -cores 2
same b c
same d a

case LAS 1.4, format 3
head 4 3 5 600
records 4 3 5 0 600
put a
room b c d
done laszip -i a -o b -chunk_size 256
done laszip -cores 8 -chunk_size 256 -o c -i a
done laszip -i b -o d -cores 2
same b c
same d a

case the first bad chunk
head 2 0 0 1280
records 2 0 0 0 1280
packed
set 4337 FF FF FF FF
put a
set 5666 FF FF FF FF
put worse
head 2 0 0 1280
records 2 0 0 0 768
put w
take a
cut 4317
set 321 41 01 00 00 00 00 00 00
set 107 00 00 00 00 00 00 00 00 00 00 00 00 00 00 00 00 00 00 00 00 00 00 00 00
put wz
room b c d e f
ends refused: a: 21 BadChunk 3/ = laszip -i a -o b -cores 1
ends refused: a: 21 BadChunk 3/ = laszip -i a -o c -cores 8
ends refused: worse: 21 BadChunk 3/ = laszip -i worse -o d -cores 4
ends refused: a: 21 BadChunk 3/ = las2las -i a -o e -olaz -chunk_size 256 -cores 1
ends refused: a: 21 BadChunk 3/ = las2las -i a -o f -olaz -chunk_size 256 -cores 8
same b w
same c w
same d w
same e wz
same f wz

case 2^31 points in chunks of no bytes, and a chunk that ends too early
take head
set 107 00 00 00 80 00 00 00 80
set 293 90 D0 03 00
add 49 01 00 00 00 00 00 00
emptytable 8590
put half
head 2 0 0 2147483648
put half.head
take form
cut 352
set 321 60
add 00 00 00 00 01 00 00 00 2C 1D 00 00 00
put short
head 2 0 0 1
put plain.head
room b c
ends refused: half: 21 BadChunk 0/ = laszip -i half -o b
ends refused: short: 21 BadChunk 0/ = laszip -i short -o c
same b half.head
same c plain.head

case a write that fails
take one
put a
take form
cut 339
set 321 41
put w
room b
failwrite 4 10
ends write fault/ = laszip -i a -o b
same b w
";

const PACKED: Script = Script {
    before: BEFORE,
    cases: CASES,
    after: "",
};

#[test]
fn files_are_packed_and_refused(rt: HostRuntime) {
    plays(&rt, &REFUSED_INPUTS);
    plays(&rt, &PACKED);
}
