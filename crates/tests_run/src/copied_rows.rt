//! `lasmerge -copy_chunks`: packed inputs whose chunks are copied as they stand.
use crate::cases::{Script, plays};

// One record, packed.
const BEFORE: &str = "\
head 2 0 0 1
set 96 41 01 00 00 01 00 00 00 80
add 00 00 6C 61 73 7A 69 70 20 65 6E 63 6F 64 65 64 00 00 BC 56 28 00 6C 61 73 7A 69 70 20 76 65 72
add 73 69 6F 6E 20 32 20 69 74 65 6D 73 00 00 00 00 00 00 00 00 00 00 02 00 00 00 02 02 00 00 00 00
add 00 00
add 50 C3 00 00
add FF FF FF FF FF FF FF FF FF FF FF FF FF FF FF FF 01 00 06 00 14 00 02 00
add 61 01 00 00 00 00 00 00
add 05 00 00 00 06 00 00 00 07 00 00 00 00 00 09 00 00 00 00 00 01 00 00 00
add 00 00 00 00 01 00 00 00 2C 5C 00 00 00
put one
";

// The first plain input is refused before it is compared. It is not reached after an earlier difference. A bad
// chunk is copied, and found under its number in the output.
const CASES: &str = "\
case twice one record
take one
set 107 02 00 00 00 02 00 00 00
set 293 FF FF FF FF
cut 321
add 79 01 00 00 00 00 00 00
add 05 00 00 00 06 00 00 00 07 00 00 00 00 00 09 00 00 00 00 00 01 00 00 00
add 05 00 00 00 06 00 00 00 07 00 00 00 00 00 09 00 00 00 00 00 01 00 00 00
add 00 00 00 00 02 00 00 00 04 8B D2 25 00 00 00
put w.laz
head 2 0 0 2
add 05 00 00 00 06 00 00 00 07 00 00 00 00 00 09 00 00 00 00 00
add 05 00 00 00 06 00 00 00 07 00 00 00 00 00 09 00 00 00 00 00
put w.las
room c.laz d.las
done lasmerge -i one -i one -o c.laz -copy_chunks
done laszip -i c.laz -o d.las
size w.laz 392
same c.laz w.laz
size w.las 267
same d.las w.las

case inputs in chunks and a copied one
head 2 0 0 600
records 2 0 0 0 600
packed
put a.laz
room c.laz d.laz e.laz f.las g.las
done lasmerge -i a.laz -i a.laz -o c.laz -copy_chunks
done lasmerge -i c.laz -i a.laz -o d.laz -copy_chunks -cores 8
done lasmerge -i a.laz -i a.laz -i a.laz -o e.laz -olaz -copy_chunks
done laszip -i d.laz -o f.las -cores 2
done lasmerge -i a.laz -i a.laz -i a.laz -o g.las
same d.laz e.laz
same f.las g.las
size f.las 36227

case inputs that are not copied
with -o c.laz -copy_chunks
head 2 0 0 1
add 05 00 00 00 06 00 00 00 07 00 00 00 00 00 09 00 00 00 00 00
set 226 01
put a.las
take one
set 226 01
put b.laz
take one
cut 300
put cut.laz
room c.laz c.las
ends refused: a.las: 27 NotPacked/ = lasmerge -i a.las @
ends refused: a.las: 27 NotPacked/ = lasmerge -i one -i a.las @
ends refused: a.las: 27 NotPacked/ = lasmerge -i one -i a.las -i none @
ends unequal: b.laz: box/ = lasmerge -i one -i b.laz -i a.las @
ends read fault: none/ = lasmerge -i one -i none -i a.las @
ends refused: cut.laz: 5 Offset/ = lasmerge -i one -i cut.laz -i a.las @
ends usage: word 4/ = lasmerge -i one -o c.las -copy_chunks
absent c.laz
absent c.las

case a bad chunk is copied
head 2 0 0 600
records 2 0 0 0 600
packed
put a.laz
set 353 FF FF FF FF
put b.laz
room c.laz d.las
done lasmerge -i a.laz -i b.laz -o c.laz -copy_chunks
ends refused: c.laz: 21 BadChunk 3/ = laszip -i c.laz -o d.las
";

const COPIED: Script = Script {
    before: BEFORE,
    cases: CASES,
    after: "",
};

#[test]
fn chunks_are_copied(rt: HostRuntime) {
    plays(&rt, &COPIED);
}
