//! `las2las`: one record of a cell, and no position twice.
use crate::cases::{Script, plays};

// Five places in three cells, if the step is 10; two positions, each twice, and one that stands between; and both sides
// of the edges of cells about 0, with the ends of the raw range.
const BEFORE: &str = "\
head 2 0 0 5
point 0 0 5
point 9 9 3
point -1 0 7
point 10 0 1
point 9 0 8
put five
head 2 0 0 5
point 1 1 1
point 1 1 2
point 1 1 1
point 2 1 2
point 1 1 2
put repeated
head 2 0 0 8
point -10 0 4
point -11 0 4
point -1 -1 4
point 0 -10 4
point 0 -1 4
point -2147483648 2147483647 4
point 2147483647 -2147483648 4
point 2147483647 2147483647 4
put edges
";

// Options, and the records that stay.
const CASES: &str = "\
case thin raw 10 of five
with -thin_raw 10
take five
put a
head 2 0 0 3
point 0 0 5
point -1 0 7
point 10 0 1
put w

case thin raw 10 lowest of five
with -thin_raw 10 -lowest
take five
put a
head 2 0 0 3
point 9 9 3
point -1 0 7
point 10 0 1
put w

case thin raw 10 highest of five
with -thin_raw 10 -highest
take five
put a
head 2 0 0 3
point -1 0 7
point 10 0 1
point 9 0 8
put w

case thin raw 1 of five
with -thin_raw 1
take five
put a
take five
put w

case thin raw 2147483647 of five
with -thin_raw 2147483647
take five
put a
head 2 0 0 2
point 0 0 5
point -1 0 7
put w

case thin raw 2147483647 highest of five
with -thin_raw 2147483647 -highest
take five
put a
head 2 0 0 2
point -1 0 7
point 9 0 8
put w

case drop repeated of five
with -drop_repeated
take five
put a
take five
put w

case drop repeated of repeated places
with -drop_repeated
take repeated
put a
head 2 0 0 3
point 1 1 1
point 1 1 2
point 2 1 2
put w

case drop repeated thin raw 1 of repeated places
with -drop_repeated -thin_raw 1
take repeated
put a
head 2 0 0 2
point 1 1 1
point 2 1 2
put w

case thin raw 1 highest of repeated places
with -thin_raw 1 -highest
take repeated
put a
head 2 0 0 2
point 1 1 2
point 2 1 2
put w

case drop repeated thin raw 2 highest of repeated places
with -drop_repeated -thin_raw 2 -highest
take repeated
put a
head 2 0 0 2
point 1 1 2
point 2 1 2
put w

case thin raw 10 lowest at the edges
with -thin_raw 10 -lowest
take edges
put a
head 2 0 0 7
point -10 0 4
point -11 0 4
point -1 -1 4
point 0 -10 4
point -2147483648 2147483647 4
point 2147483647 -2147483648 4
point 2147483647 2147483647 4
put w

case thin raw 10 highest at the edges
with -thin_raw 10 -highest
take edges
put a
head 2 0 0 7
point -10 0 4
point -11 0 4
point -1 -1 4
point 0 -10 4
point -2147483648 2147483647 4
point 2147483647 -2147483648 4
point 2147483647 2147483647 4
put w

case thin raw 2147483647 at the edges
with -thin_raw 2147483647
take edges
put a
head 2 0 0 6
point -10 0 4
point -1 -1 4
point 0 -10 4
point -2147483648 2147483647 4
point 2147483647 -2147483648 4
point 2147483647 2147483647 4
put w

case thin raw 10 keep class 3 of five
with -thin_raw 10 -keep_class 3
take five
put a
head 2 0 0 0
put w

case drop repeated of none
with -drop_repeated
head 2 0 0 0
put a
head 2 0 0 0
put w
";

// Packed or plain on either side, with one worker or more.
const AFTER: &str = "\
room az wz b c d e f g h i
done laszip -i a -o az -chunk_size 256
done laszip -i w -o wz -chunk_size 256
done las2las -i a -o b @ -cores 1
done las2las -i a -o c @ -cores 8
done las2las -i a -o d @ -cores 1 -olaz -chunk_size 256
done las2las -i a -o e @ -cores 8 -olaz -chunk_size 256
done las2las -i az -o f @ -cores 1
done las2las -i az -o g @ -cores 8
done las2las -i az -o h @ -cores 1 -olaz -chunk_size 256
done las2las -i az -o i @ -cores 8 -olaz -chunk_size 256
same b w
same c w
same d wz
same e wz
same f w
same g w
same h wz
same i wz
";

const STAY: Script = Script {
    before: BEFORE,
    cases: CASES,
    after: AFTER,
};

// A range, filters, positions, cells and changes come one after another: as many runs, one for each, give the same. A
// bad chunk, the second, ends a run of two readings before its output is created. A coordinate that leaves its range
// has the number that it has in the list that stays.
const OTHER_CASES: &str = "\
case one after another
head 2 0 0 900
records 2 0 0 0 900
packed
put a
room r s t u v w
done las2las -i a -o r -start_at_point 200 -stop_at_point 800
done las2las -i r -o s -keep_class 2
done las2las -i s -o t -drop_repeated
done las2las -i t -o u -thin_raw 90 @
done las2las -i u -o v -set_classification 7
done las2las -i a -o w -start_at_point 200 -stop_at_point 800 -keep_class 2 -set_classification 7 \
    -drop_repeated -cores 2 -thin_raw 90 @
same w v
above v 227

case one after another, the lowest
with -lowest
head 2 0 0 900
records 2 0 0 0 900
packed
put a
room r s t u v w
done las2las -i a -o r -start_at_point 200 -stop_at_point 800
done las2las -i r -o s -keep_class 2
done las2las -i s -o t -drop_repeated
done las2las -i t -o u -thin_raw 90 @
done las2las -i u -o v -set_classification 7
done las2las -i a -o w -start_at_point 200 -stop_at_point 800 -keep_class 2 -set_classification 7 \
    -drop_repeated -cores 2 -thin_raw 90 @
same w v
above v 227

case one after another, the highest
with -highest
head 2 0 0 900
records 2 0 0 0 900
packed
put a
room r s t u v w
done las2las -i a -o r -start_at_point 200 -stop_at_point 800
done las2las -i r -o s -keep_class 2
done las2las -i s -o t -drop_repeated
done las2las -i t -o u -thin_raw 90 @
done las2las -i u -o v -set_classification 7
done las2las -i a -o w -start_at_point 200 -stop_at_point 800 -keep_class 2 -set_classification 7 \
    -drop_repeated -cores 2 -thin_raw 90 @
same w v
above v 227

case the lowest of no cell
head 2 0 0 1
point 0 0 5
put a
room b
ends usage: word 5/ = las2las -i a -o b -lowest
absent b

case a bad chunk
head 2 0 0 1000
records 2 0 0 0 1000
packed
set 1677 FF FF FF FF
put a
room b c d
ends refused: a: 21 BadChunk 1/ = las2las -i a -o b -thin_raw 10 -lowest
ends refused: a: 21 BadChunk 1/ = las2las -i a -o c -thin_raw 10 -highest
ends refused: a: 21 BadChunk 1/ = las2las -i a -o d -thin_raw 10
absent b
absent c
above d 226

case a coordinate that leaves its range
with -thin_raw 10 -translate_raw_x 1
head 2 0 0 5
point 0 0 1
point 1 1 9
point 50 0 2
point 2147483647 0 4
point 3 3 0
put a
head 2 0 0 0
point 1 0 1
point 51 0 2
put w
head 2 0 0 0
point 2 1 9
point 51 0 2
put high
room b c
ends refused: a: 22 RawRange 2/ = las2las -i a -o b @
ends refused: a: 22 RawRange 2/ = las2las -i a -o c @ -highest
same b w
same c high
";

const TWICE: Script = Script {
    before: BEFORE,
    cases: OTHER_CASES,
    after: "",
};

#[test]
fn records_that_stay(rt: HostRuntime) {
    plays(&rt, &STAY);
}

#[test]
fn two_readings(rt: HostRuntime) {
    plays(&rt, &TWICE);
}
