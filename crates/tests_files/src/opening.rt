//! Files that are read, and files that are refused.
use crate::cases::{Script, first_wrong, none_is};

// The file of one record, and its packed form.
const BEFORE: &str = "\
head 2 0 0 1
add 05 00 00 00 06 00 00 00 07 00 00 00 00 00 09 00 00 00 00 00
put one
head 2 0 0 1
set 96 41 01 00 00 01 00 00 00 80
add 00 00 6C 61 73 7A 69 70 20 65 6E 63 6F 64 65 64 00 00 BC 56 28 00 6C 61 73 7A 69 70 20 76 65 72
add 73 69 6F 6E 20 32 20 69 74 65 6D 73 00 00 00 00 00 00 00 00 00 00
add 02 00 00 00 02 02 00 00 00 00 00 00 50 C3 00 00 FF FF FF FF FF FF FF FF FF FF FF FF FF FF FF FF
add 01 00 06 00 14 00 02 00
add 61 01 00 00 00 00 00 00
add 05 00 00 00 06 00 00 00 07 00 00 00 00 00 09 00 00 00 00 00 01 00 00 00
add 00 00 00 00 01 00 00 00 2C 5C 00 00 00
put form
";

const CASES: &str = "\
case the smallest files
head 2 0 0 0
put none
room one.z one.b none.z none.b
write one one.z 50000 0 2
write one.z one.b 0 0 2
write none none.z 50000 0 2
write none.z none.b 0 0 2
size one.z 366
same one.z form
same one.b one
size none.z 337
has none.z 321 49 01 00 00 00 00 00 00 00 00 00 00 00 00 00 00
same none.b none

case hostile files
refuse form Magic 366 0 4C 41 53 58
refuse form Version 366 24 02
refuse form Version 366 25 05
refuse form HeaderSize 366 94 E2 00
refuse form Offset 366 96 E2 00 00 00
refuse form Offset 366 96 6F 01 00 00
refuse form Vlrs 366 100 02 00 00 00
refuse form Vlrs 366 247 FF FF
refuse form Format 366 104 84
refuse form RecordLength 366 105 13 00
refuse form RecordLength 366 105 D5 00
refuse form NoVlr 366 245 BD 56
refuse form VlrShape 366 247 27 00
refuse form Compressor 366 281 01 00
refuse form Compressor 366 283 01 00
refuse form Items 366 105 15 00
refuse form Items 366 319 01 00
refuse form ChunkSize 366 293 00 00 00 00
refuse form TablePointer 366 321 48 01 00 00
refuse form TablePointer 366 321 6F 01 00 00
refuse form Table 366 321 6E 01 00 00
refuse form Table 366 321 60 01 00 00
refuse form Table 366 353 01
refuse form Table 366 357 02
refuse form Table 366 107 00 00 00 00
refuse form Table 365 0
refuse form Table 366 361 FF FF FF FF
refuse form Table 354 0
refuse form TablePointer 328 0
refuse form Short 226 0
refuse form Short 0 0
refuse form BadChunk:0 366 107 02 00 00 00
refuse form BadChunk:0 366 349 FF FF FF FF

case counted chunks
take form
set 293 FF FF FF FF
length 353
add 00 00 00 00 01 00 00 00 04 8B D3 00 00 00
put a
room b
write a b 0 0 2
refuse a PointSum 367 107 02
refuse a Table 367 357 02
refuse a Table 367 353 01
size a 367
same b one

case hostile counts
take form
set 107 FF FF FF FF
put many
take form
set 107 01 00 00 01
put more
take form
set 321 62
length 353
add 00
add 00 00 00 00 01 00 00 00 2C 5C 00 00 00
put later
refuse many Table 366 293 90 D0 03 00
refuse more TooManyChunks 366 293 01 00 00 00
refuse more ChunkSize 366 293 91 D0 03 00
refuse later ChunkSum 367 0

case foreign files
take form
set 321 FF FF FF FF FF FF FF FF
add 61 01 00 00 00 00 00 00
put last
take form
add 01 02 03
set 285 03 09 01 01 07 00 00 00
put other
read last 1 ok one 227 247
refuse last Table 374 366 62
refuse last TablePointer 374 366 48
refuse last TablePointer 374 366 6F
read other 2 ok one 227 247

case another place of the VLR
head 2 0 1 1
add 05 00 00 00 06 00 00 00 07 00 00 00 00 00 09 00 00 00 00 00
put one
head 2 0 0 1
set 96 7B 01 00 00 02 00 00 00 80
add 00 00 6C 61 73 7A 69 70 20 65 6E 63 6F 64 65 64 00 00 BC 56 28 00 6C 61 73 7A 69 70 20 76 65 72
add 73 69 6F 6E 20 32 20 69 74 65 6D 73 00 00 00 00 00 00 00 00 00 00
add 02 00 00 00 02 02 00 00 00 00 00 00 50 C3 00 00 FF FF FF FF FF FF FF FF FF FF FF FF FF FF FF FF
add 01 00 06 00 14 00 02 00
vlr
add 61 01 00 00 00 00 00 00
set 379 9B
add 05 00 00 00 06 00 00 00 07 00 00 00 00 00 09 00 00 00 00 00 01 00 00 00
add 00 00 00 00 01 00 00 00 2C 5C 00 00 00
put first
room one.z one.b b
write one one.z 50000 0 2
write one.z one.b 0 0 2
write first b 0 0 2
size one.z 424
same one.b one
size first 424
same b one

case all versions
head 0 0 0 1
add 05 00 00 00 06 00 00 00 07 00 00 00 00 00 09 00 00 00 00 00
put 0
head 1 0 0 1
add 05 00 00 00 06 00 00 00 07 00 00 00 00 00 09 00 00 00 00 00
put 1
head 3 0 0 1
add 05 00 00 00 06 00 00 00 07 00 00 00 00 00 09 00 00 00 00 00
put 3
head 4 0 0 1
add 05 00 00 00 06 00 00 00 07 00 00 00 00 00 09 00 00 00 00 00
put 4
head 4 0 0 1
add 05 00 00 00 06 00 00 00 07 00 00 00 00 00 09 00 00 00 00 00
set 107 00
put new
room 0.z 0.b 1.z 1.b 3.z 3.b 4.z 4.b
write 0 0.z 50000 0 2
write 0.z 0.b 0 0 2
write 1 1.z 50000 0 2
write 1.z 1.b 0 0 2
write 3 3.z 50000 0 2
write 3.z 3.b 0 0 2
write 4 4.z 50000 0 2
write 4.z 4.b 0 0 2
read new 1 ok 4 375 395
refuse 4 PointCounts 395 247 02
refuse 4 Extended 395 243 01
refuse 4 HeaderSize 395 94 76
refuse 4 Version 395 25 05
size 0.z 366
same 0.b 0
size 1.z 366
same 1.b 1
size 3.z 374
same 3.b 3
size 4.z 514
same 4.b 4

case plain files
head 2 0 0 1
length 16777104
add 05 00 00 00 06 00 00 00 07 00 00 00 00 00 09 00 00 00 00 00
set 96 90 FF FF
put far
head 2 0 0 1
length 16777105
add 05 00 00 00 06 00 00 00 07 00 00 00 00 00 09 00 00 00 00 00
set 96 91 FF FF
put further
head 2 0 0 50001
records 2 0 0 50001
put a
read far 1 ok one 227 247
refuse further Offset 16777125 0
read a 8 ok a 227 1000247
refuse a Trailing 1000248 0
refuse a Count 1000246 0
";

const OPENED: Script = Script {
    before: BEFORE,
    cases: CASES,
    after: "",
};

#[test]
fn files_are_opened(rt: HostRuntime) {
    none_is(first_wrong(&rt, rt.alloc(), &OPENED), &rt);
}
