//! Calls that fail in turn. What a failed writing leaves is said by the clauses `stopped` of the writer.
use crate::cases::{Script, first_wrong, none_is};

// 300 records of format 3, 10,200 bytes, and names for outputs.
const BEFORE: &str = "\
head 2 3 0 300
records 2 3 0 300
put a
room z p
";

// The first call fails in the first attempt, the second one in the second attempt, and so on. Then no call of an attempt
// fails, and after it the first one again. Calls are numbered through all attempts of a case, so this says how many an
// attempt has. A plain file is read by its size, its front, its head and one block; a packed one by its pointer, its
// table and its chunks too. The reads of a packed file are numbered after those of the writing before. An output is
// created, and its head, the pointer, two chunks and the table are appended, or its head and the records; then its
// counts are set, and the pointer.
const CASES: &str = "\
case each read of a plain file fails
failread 1
failread 3
failread 6
failread 10
failread 15
read a 2 Read a 227 227
read a 2 Read a 227 227
read a 2 Read a 227 227
read a 2 Read a 227 227
read a 2 ok a 227 10427
read a 2 Read a 227 227

case each read of a packed file fails
write a z 256 1 2
failread 8
failread 10
failread 13
failread 17
failread 22
failread 28
failread 35
failread 43
failread 52
read z 2 Read a 227 227
read z 2 Read a 227 227
read z 2 Read a 227 227
read z 2 Read a 227 227
read z 2 Read a 227 227
read z 2 Read a 227 227
read z 2 Read a 227 227
read z 2 Read a 227 227
read z 2 ok a 227 10427
read z 2 Read a 227 227

case each write of a packed file fails after 0 bytes
failwrite 1 0
failwrite 3 0
failwrite 6 0
failwrite 10 0
failwrite 15 0
failwrite 21 0
failwrite 28 0
failwrite 36 0
failwrite 45 0
break a z 256 1 2
break a z 256 1 2
break a z 256 1 2
break a z 256 1 2
break a z 256 1 2
break a z 256 1 2
break a z 256 1 2
break a z 256 1 2
write a z 256 1 2
read z 2 ok a 227 10427
break a z 256 1 2

case each write of a plain file fails after 0 bytes
failwrite 1 0
failwrite 3 0
failwrite 6 0
failwrite 10 0
failwrite 15 0
break a p 0 1 2
break a p 0 1 2
break a p 0 1 2
break a p 0 1 2
write a p 0 1 2
read p 2 ok a 227 10427
break a p 0 1 2

case each write of a packed file fails after 1 bytes
failwrite 1 1
failwrite 3 1
failwrite 6 1
failwrite 10 1
failwrite 15 1
failwrite 21 1
failwrite 28 1
failwrite 36 1
failwrite 45 1
break a z 256 1 2
break a z 256 1 2
break a z 256 1 2
break a z 256 1 2
break a z 256 1 2
break a z 256 1 2
break a z 256 1 2
break a z 256 1 2
write a z 256 1 2
read z 2 ok a 227 10427
break a z 256 1 2

case each write of a plain file fails after 1 bytes
failwrite 1 1
failwrite 3 1
failwrite 6 1
failwrite 10 1
failwrite 15 1
break a p 0 1 2
break a p 0 1 2
break a p 0 1 2
break a p 0 1 2
write a p 0 1 2
read p 2 ok a 227 10427
break a p 0 1 2

case each write of a packed file fails after 1000 bytes
failwrite 1 1000
failwrite 3 1000
failwrite 6 1000
failwrite 10 1000
failwrite 15 1000
failwrite 21 1000
failwrite 28 1000
failwrite 36 1000
failwrite 45 1000
break a z 256 1 2
break a z 256 1 2
break a z 256 1 2
break a z 256 1 2
break a z 256 1 2
break a z 256 1 2
break a z 256 1 2
break a z 256 1 2
write a z 256 1 2
read z 2 ok a 227 10427
break a z 256 1 2

case each write of a plain file fails after 1000 bytes
failwrite 1 1000
failwrite 3 1000
failwrite 6 1000
failwrite 10 1000
failwrite 15 1000
break a p 0 1 2
break a p 0 1 2
break a p 0 1 2
break a p 0 1 2
write a p 0 1 2
read p 2 ok a 227 10427
break a p 0 1 2
";

const FAULTS: Script = Script {
    before: BEFORE,
    cases: CASES,
    after: "",
};

#[test]
fn calls_fail(rt: HostRuntime) {
    none_is(first_wrong(&rt, rt.alloc(), &FAULTS), &rt);
}
