//! `las2las`: records that are kept and changed, packed or plain on either side.
use crate::cases::{Script, plays};

// Two records: of class 2, and of class 5 with class flags.
const BEFORE: &str = "\
head 2 0 0 2
add 07 00 00 00 00 00 00 00 00 00 00 00 64 00 11 02 00 00 00 00
add 08 00 00 00 00 00 00 00 00 00 00 00 C8 00 12 65 00 00 00 00
put a
";

// What filters and changes make of them.
const CASES: &str = "\
case a class and a return
with -keep_class 2 5 -drop_return 1
head 2 0 0 2
set 107 01 00 00 00 00 00 00 00 01 00 00 00
add 08 00 00 00 00 00 00 00 00 00 00 00 C8 00 12 65 00 00 00 00
put w

case first returns
with -keep_first
head 2 0 0 2
set 107 01 00 00 00 01 00 00 00 00 00 00 00
add 07 00 00 00 00 00 00 00 00 00 00 00 64 00 11 02 00 00 00 00
put w

case last returns
with -keep_last
head 2 0 0 2
set 107 01 00 00 00 00 00 00 00 01 00 00 00
add 08 00 00 00 00 00 00 00 00 00 00 00 C8 00 12 65 00 00 00 00
put w

case an intensity that is kept
with -keep_intensity 100 199
head 2 0 0 2
set 107 01 00 00 00 01 00 00 00 00 00 00 00
add 07 00 00 00 00 00 00 00 00 00 00 00 64 00 11 02 00 00 00 00
put w

case an intensity and a class that is set
with -drop_intensity_below 200 -set_classification 31
head 2 0 0 2
set 107 01 00 00 00 00 00 00 00 01 00 00 00
add 08 00 00 00 00 00 00 00 00 00 00 00 C8 00 12 7F 00 00 00 00
put w

case there and back
with -translate_raw_x -5 -translate_raw_xyz 5 0 0
head 2 0 0 2
set 107 02 00 00 00 01 00 00 00 01 00 00 00
add 07 00 00 00 00 00 00 00 00 00 00 00 64 00 11 02 00 00 00 00
add 08 00 00 00 00 00 00 00 00 00 00 00 C8 00 12 65 00 00 00 00
put w

case a class that is kept
with -keep_class 2
head 2 0 0 2
set 107 01 00 00 00 01 00 00 00 00 00 00 00
add 07 00 00 00 00 00 00 00 00 00 00 00 64 00 11 02 00 00 00 00
put w

case no intensity above the bound
with -drop_intensity_above 200
head 2 0 0 2
set 107 02 00 00 00 01 00 00 00 01 00 00 00
add 07 00 00 00 00 00 00 00 00 00 00 00 64 00 11 02 00 00 00 00
add 08 00 00 00 00 00 00 00 00 00 00 00 C8 00 12 65 00 00 00 00
put w

case an intensity above the bound
with -drop_intensity_above 199
head 2 0 0 2
set 107 01 00 00 00 01 00 00 00 00 00 00 00
add 07 00 00 00 00 00 00 00 00 00 00 00 64 00 11 02 00 00 00 00
put w

case a class that is dropped
with -drop_class 2
head 2 0 0 2
set 107 01 00 00 00 00 00 00 00 01 00 00 00
add 08 00 00 00 00 00 00 00 00 00 00 00 C8 00 12 65 00 00 00 00
put w

case a return that is moved
with -keep_return 2 -translate_raw_x 1
head 2 0 0 2
set 107 01 00 00 00 00 00 00 00 01 00 00 00
add 09 00 00 00 00 00 00 00 00 00 00 00 C8 00 12 65 00 00 00 00
put w

case a class of no record
with -keep_class 3
head 2 0 0 2
set 107 00 00 00 00 00 00 00 00 00 00 00 00
put w

case a class that is set after it is kept
with -set_classification 5 -keep_class 2
head 2 0 0 2
set 107 01 00 00 00 01 00 00 00 00 00 00 00
add 07 00 00 00 00 00 00 00 00 00 00 00 64 00 11 05 00 00 00 00
put w
";

// Plain and packed.
const AFTER: &str = "\
room b c wz
done laszip -i w -o wz -chunk_size 256
done las2las -i a -o b @
done las2las @ -o c -i a -olaz -chunk_size 256
same b w
same c wz
";

const KEPT: Script = Script {
    before: BEFORE,
    cases: CASES,
    after: AFTER,
};

// A kept record whose coordinate leaves its range ends the run; the records before it stand. Packed or plain on either
// side and with one worker or two, the same records are kept: 400 of 600.
const SIDE_CASES: &str = "\
case packed by the name of the output
head 2 0 0 1
add 07 00 00 00 00 00 00 00 00 00 00 00 64 00 11 02 00 00 00 00
put a
head 2 0 0 1
add 07 00 00 00 00 00 00 00 00 00 00 00 64 00 11 02 00 00 00 00
packed
put w
room b.laz b.LAZ c.laz b.las b.Laz
done las2las -i a -o b.laz -chunk_size 256
done las2las -i a -o b.LAZ -chunk_size 256
done las2las -i a -o c.laz -olas -chunk_size 256
done las2las -i a -o b.las -olaz -chunk_size 256
done las2las -i a -o b.Laz -chunk_size 256
same b.laz w
same b.LAZ w
same c.laz a
same b.las w
same b.Laz a

case the second record leaves its range
with -keep_class 2 -translate_raw_xyz 1 0 0
head 2 0 0 2
add FF FF FF 7F 00 00 00 00 00 00 00 00 00 00 09 01 00 00 00 00
add FF FF FF 7F 00 00 00 00 00 00 00 00 00 00 09 02 00 00 00 00
put a
head 2 0 0 2
add FF FF FF 7F 00 00 00 00 00 00 00 00 00 00 09 01 00 00 00 00
add FF FF FF 7F 00 00 00 00 00 00 00 00 00 00 09 02 00 00 00 00
packed
put az
head 2 0 0 2
set 107 00 00 00 00 00 00 00 00 00 00 00 00
put w
room b c
ends refused: a: 22 RawRange 0/ = las2las -i a -o b @
ends refused: az: 22 RawRange 0/ = las2las -i az -o c @
same b w
same c w

case no kept record leaves its range
with -keep_class 2 -translate_raw_xyz 1 0 0
head 2 0 0 2
add FF FF FF 7F 00 00 00 00 00 00 00 00 00 00 09 01 00 00 00 00
add FF FF FF 7F 00 00 00 00 00 00 00 00 00 00 09 01 00 00 00 00
put a
head 2 0 0 2
add FF FF FF 7F 00 00 00 00 00 00 00 00 00 00 09 01 00 00 00 00
add FF FF FF 7F 00 00 00 00 00 00 00 00 00 00 09 01 00 00 00 00
packed
put az
head 2 0 0 2
set 107 00 00 00 00 00 00 00 00 00 00 00 00
put w
room b c
done las2las -i a -o b @
done las2las -i az -o c @
same b w
same c w

case the third kept record leaves its range
with -keep_class 2 -translate_raw_xyz 1 0 0
head 2 0 0 5
add 03 00 00 00 00 00 00 00 00 00 00 00 00 00 09 02 00 00 00 00
add FF FF FF 7F 00 00 00 00 00 00 00 00 00 00 09 01 00 00 00 00
add 03 00 00 00 00 00 00 00 00 00 00 00 00 00 09 02 00 00 00 00
add FF FF FF 7F 00 00 00 00 00 00 00 00 00 00 09 02 00 00 00 00
add 03 00 00 00 00 00 00 00 00 00 00 00 00 00 09 02 00 00 00 00
put a
head 2 0 0 5
add 03 00 00 00 00 00 00 00 00 00 00 00 00 00 09 02 00 00 00 00
add FF FF FF 7F 00 00 00 00 00 00 00 00 00 00 09 01 00 00 00 00
add 03 00 00 00 00 00 00 00 00 00 00 00 00 00 09 02 00 00 00 00
add FF FF FF 7F 00 00 00 00 00 00 00 00 00 00 09 02 00 00 00 00
add 03 00 00 00 00 00 00 00 00 00 00 00 00 00 09 02 00 00 00 00
packed
put az
head 2 0 0 5
set 107 00 00 00 00 00 00 00 00 00 00 00 00
add 04 00 00 00 00 00 00 00 00 00 00 00 00 00 09 02 00 00 00 00
add 04 00 00 00 00 00 00 00 00 00 00 00 00 00 09 02 00 00 00 00
put w
room b c
ends refused: a: 22 RawRange 2/ = las2las -i a -o b @
ends refused: az: 22 RawRange 2/ = las2las -i az -o c @
same b w
same c w

case either side of LAS 1.2
with -keep_class 2
head 2 3 2 600
records 2 3 2 0 600
put a
head 2 3 2 600
records 2 3 2 0 600
packed
put az
room k kz b c d e f g h i
done las2las -i a -o k @
done laszip -i k -o kz -chunk_size 256
done las2las -i a -o b @ -olas
done las2las -i a -o c @ -cores 2
done las2las -i a -o d @ -olaz -chunk_size 256
done las2las -i a -o e @ -olaz -chunk_size 256 -cores 2
done las2las -i az -o f @ -olas
done las2las -i az -o g @ -cores 2
done las2las -i az -o h @ -olaz -chunk_size 256
done las2las -i az -o i @ -olaz -chunk_size 256 -cores 2
size k 14687
same b k
same c k
same d kz
same e kz
same f k
same g k
same h kz
same i kz

case either side of LAS 1.4
with -keep_class 2
head 4 3 2 600
records 4 3 2 0 600
put a
head 4 3 2 600
records 4 3 2 0 600
packed
put az
room k kz b c d e f g h i
done las2las -i a -o k @
done laszip -i k -o kz -chunk_size 256
done las2las -i a -o b @ -olas
done las2las -i a -o c @ -cores 2
done las2las -i a -o d @ -olaz -chunk_size 256
done las2las -i a -o e @ -olaz -chunk_size 256 -cores 2
done las2las -i az -o f @ -olas
done las2las -i az -o g @ -cores 2
done las2las -i az -o h @ -olaz -chunk_size 256
done las2las -i az -o i @ -olaz -chunk_size 256 -cores 2
size k 14835
same b k
same c k
same d kz
same e kz
same f k
same g k
same h kz
same i kz
";

const SIDES: Script = Script {
    before: "",
    cases: SIDE_CASES,
    after: "",
};

#[test]
fn records_are_kept(rt: HostRuntime) {
    plays(&rt, &KEPT);
    plays(&rt, &SIDES);
}
