//! Rows of `lasinfo`, `lassplit`, `lasmerge` and `make`.
use crate::cases::{Script, plays};

const CASES: &str = "\
case five records in parts of two, and the parts merged again
with -i p_0000000.las -i p_0000001.las
head 2 0 0 5
records 2 0 0 0 5
put a
head 2 0 0 2
records 2 0 0 0 2
put first
head 2 0 0 2
records 2 0 0 2 4
put second
head 2 0 0 1
records 2 0 0 4 5
put third
head 2 0 0 1
records 2 0 0 4 5
set 226 01
put other
take none
add 61 73
put before
take none
add 61 73
put c
room p_0000000.las p_0000001.las p_0000002.las b
done lassplit -i a -o p.las -split 2
done lasmerge @ -i p_0000002.las -o b -cores 2
ends unequal: other: box/ = lasmerge @ -i other -o c -cores 2
same p_0000000.las first
same p_0000001.las second
same p_0000002.las third
same b a
same c before

case too many points
head 2 0 0 1
records 2 0 0 0 1
packed
cut 329
emptytable 8590
set 107 00 00 00 80
set 293 90 D0 03 00
set 321 49 01 00 00 00 00 00 00
put a
room b c
ends too many points/ = lasmerge -i a -i a -o b
ends refused: a: 21 BadChunk 0/ = laszip -i a -o c
absent b

case inputs that do not open
head 2 0 0 5
records 2 0 0 0 5
put a
head 2 0 0 5
records 2 0 0 0 5
cut 326
put c
room b b_0000000
ends read fault: none/ = lasmerge -i a -i none -o b
ends refused: c: 9 Count/ = lasmerge -i a -i c -i none -o b
ends read fault: none/ = lassplit -i none -o b -split 2
ends refused: c: 9 Count/ = lassplit -i c -o b -split 2
absent b
absent b_0000000

case no point is made
room m z
tells points 0/plain 227/packed 337/ = make -o m -z z -points 0 -seed 1
size m 227
size z 337

case one point is made
room m z n
tells points 1/plain 247/packed 366/ = make -o m -z z -points 1 -seed 0
done laszip -i z -o n
has m 227 0E
same n m

case long returns are reported
head 4 0 0 3
records 4 0 0 0 3
put a
room b
tells version 1.4/header 375/offset 375/vlrs 0/format 0/length 20/points 3/packed no/header returns 3 0 0 0 \
    0/long returns 3 0 0 0 0 0 0 0 0 0 0 0 0 0 0/record returns 3 0 0 0 0/raw x 256 258/raw y 512 513/raw z 3 515/ \
    = lasinfo -i a -cores 2

case a packed file is reported
head 2 0 0 1
add 05 00 00 00 06 00 00 00 07 00 00 00 E8 03 09 02 00 00 09 00
packed
put a
tells version 1.2/header 227/offset 321/vlrs 1/vlr 6c61737a697020656e636f6465640000 22204 40/format 0/length \
    20/points 1/packed 256 1/header returns 1 0 0 0 0/record returns 1 0 0 0 0/raw x 5 5/raw y 6 6/raw z 7 7/ \
    = lasinfo -i a

case a VLR and the ends of coordinates are reported
head 4 0 2 2
set 107 00 00 00 00 00 00 00 00
set 255 01 00 00 00 00 00 00 00 01
set 377 73 6F 6D 65 62 6F 64 79 00 00 00 00 00 00 00 00 07 00 02 00
add 05 00 00 00 06 00 00 00 07 00 00 00 E8 03 09 02 00 00 09 00
add FF FF FF FF FF FF FF 7F 00 00 00 80 FF 02 12 61 00 00 09 00
put a
tells version 1.4/header 375/offset 435/vlrs 1/vlr 736f6d65626f64790000000000000000 7 2/format 0/length 20/points \
    2/packed no/header returns 0 0 0 0 0/long returns 1 1 0 0 0 0 0 0 0 0 0 0 0 0 0/record returns 1 1 0 0 0/raw x \
    -1 5/raw y 6 2147483647/raw z -2147483648 7/ = lasinfo -i a

case records are tallied
head 2 0 0 2
add 05 00 00 00 06 00 00 00 07 00 00 00 00 00 09 02 00 00 00 00
add 05 00 00 00 06 00 00 00 07 00 00 00 00 00 09 01 00 00 00 00
put a
room b c d e
tells version 1.2/header 227/offset 227/vlrs 0/format 0/length 20/points 2/packed no/header returns 2 0 0 0 0/record \
    returns 2 0 0 0 0/raw x 5 5/raw y 6 6/raw z 7 7/tally class/1 1/2 1/ = lasinfo -i a -tally class -cores 2
tells tally class/1 1/2 1/ = las2las -i a -o b -tally class
tells tally class/7 2/ = las2las -i b -o c -set_classification 7 -tally class
tells tally class/2 1/ = las2las -i a -o c -keep_class 2 -thin_raw 9 -lowest -tally class
ends refused: a: 22 RawRange 0/ = las2las -i a -o d -translate_raw_x 2147483647 -tally class
ends usage: word 6/ = las2las -i a -o d -tally parity
same b a

case tallies are not put
head 2 0 0 5
records 2 0 0 0 5
put a
room b
failput 1
ends write fault/ = las2las -i a -o b -tally class
same b a

case the text of make is not put
room b c d e
failput 1
ends write fault/ = make -o b -z c -points 3 -seed 1
tells points 3/plain 287/packed 382/ = make -o d -z e -points 3 -seed 1
same b d
same c e

case a report is not put
head 2 0 0 5
records 2 0 0 0 5
put a
room b
failput 1
ends write fault/ = lasinfo -i a
";

const TOOLS: Script = Script {
    before: "",
    cases: CASES,
    after: "",
};

#[test]
fn other_tools(rt: HostRuntime) {
    plays(&rt, &TOOLS);
}
