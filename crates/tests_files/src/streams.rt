//! Records of many chunks, written and read.
use crate::cases::{Script, first_wrong, none_is};

// Of each format.
const FORMATS: &str = "\
case format 0
head 2 0 0 600
records 2 0 0 600
put a

case format 1
head 2 1 0 600
records 2 1 0 600
put a

case format 2
head 2 2 0 600
records 2 2 0 600
put a

case format 3
head 2 3 0 600
records 2 3 0 600
put a
";

// Packed and unpacked again with 1, 2 and 8 workers: the file does not depend on them.
const BOTH_WAYS: &str = "\
room z b c d e f g
write a z 256 0 2
write a b 256 0 1
write a c 256 0 8
write z d 0 0 1
write z e 0 0 2
write z f 0 0 8
shorter z a 227
same b z
same c z
same d a
same e a
same f a
";

const WHOLE: Script = Script {
    before: "",
    cases: FORMATS,
    after: BOTH_WAYS,
};

#[test]
fn files_go_both_ways(rt: HostRuntime) {
    none_is(first_wrong(&rt, rt.alloc(), &WHOLE), &rt);
}

// Records that are pushed in one piece, and in several, plain and packed, counted or not. Chunks of 256 points: one for
// 256 points, and a second one of 24 bytes for one point more. The fourth of five chunks, which begins at byte 8,286,
// is bad: the records of three are read, whatever the workers.
const CASES: &str = "\
case pieces make one file
head 2 0 0 1280
records 2 0 0 1280
put a
room b b1 b2 b3 c c1 c2 c3 d d1 d2 d3 e e1 e2 e3
write a b 256 0 2
write a b1 256 0 2 1 255 256 768
write a b2 256 0 2 768 256 255 1
write a b3 256 0 2 0 0 640 0 639
write a c 256 1 2
write a c1 256 1 2 1 255 256 768
write a c2 256 1 2 768 256 255 1
write a c3 256 1 2 0 0 640 0 639
write a d 0 0 2
write a d1 0 0 2 1 255 256 768
write a d2 0 0 2 768 256 255 1
write a d3 0 0 2 0 0 640 0 639
write a e 0 1 2
write a e1 0 1 2 1 255 256 768
write a e2 0 1 2 768 256 255 1
write a e3 0 1 2 0 0 640 0 639
same b1 b
same b2 b
same b3 b
same c1 c
same c2 c
same c3 c
same d1 d
same d2 d
same d3 d
same e1 e
same e2 e
same e3 e
shorter b a 227
shorter c a 227
same d a
size e 25827

case the last chunk has the rest
head 2 0 0 256
records 2 0 0 256
put a
head 2 0 0 257
records 2 0 0 257
put b
room y z c
write a y 256 0 2
write b z 256 0 2
write z c 0 0 2
has y 321 A7 0B 00 00
has y 2987 01 00 00 00
has z 321 BF 0B 00 00
has z 3011 02 00 00 00
same c b

case a bad chunk
head 2 0 0 1280
records 2 0 0 1280
put a
room z
write a z 256 0 2
take z
set 8306 FF FF FF FF
put bad
read bad 1 BadChunk:3 a 227 15587
read bad 2 BadChunk:3 a 227 15587
read bad 3 BadChunk:3 a 227 15587
read bad 8 BadChunk:3 a 227 15587
";

const CHUNKS: Script = Script {
    before: "",
    cases: CASES,
    after: "",
};

#[test]
fn chunks_are_written_and_read(rt: HostRuntime) {
    none_is(first_wrong(&rt, rt.alloc(), &CHUNKS), &rt);
}
