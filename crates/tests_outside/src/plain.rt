//! Outputs under their own names, inputs, and the standard streams.

use crate::said::Said;
use crate::steps::first_wrong;
use crate::words::none_is;
use las_outside::{RealFiles, RealSink, Sink};

static SCRIPTS: [&str; 6] = [
    "\
# A file of the system holds what was appended, with its patch, and says where it ends. A folder is no file.
create las_outside_file
append las_outside_file abcdef
append las_outside_file gh
patch las_outside_file 2 XY
size las_outside_file 8
read las_outside_file 1 bXYef
read las_outside_file 4 none
size . none
size las_outside_none none
not_created las_outside_none/a
create las_outside_file
size las_outside_file 0
remove las_outside_file
",
    "\
# A file that was read is not made empty, by whatever name it is created.
write las_outside_input abcdef
size las_outside_input 6
hard_link las_outside_input las_outside_hard
soft_link las_outside_input las_outside_soft
not_created las_outside_input
not_created ./las_outside_input
not_created las_outside_hard
not_created las_outside_soft
size las_outside_input 6
remove las_outside_hard
remove las_outside_soft
remove las_outside_input
",
    "\
# An output is created under one name, and again under that one alone.
create las_outside_output
append las_outside_output abc
not_created ./las_outside_output
append las_outside_output def
size las_outside_output 6
create las_outside_output
append las_outside_output gh
size las_outside_output 2
remove las_outside_output
",
    "\
# What is no regular file is no output, and a file that is longer than what is written keeps nothing of its own.
not_created /dev/null
not_created /dev/full
not_created .
not_created las_outside_none/a
write las_outside_longer abcdef
create las_outside_longer
append las_outside_longer xyz
patch las_outside_longer 1 Y
append las_outside_longer !
holds las_outside_longer xYz!
remove las_outside_longer
",
    "\
# More outputs than are open at a time each hold what was appended to them.
many 0 600 create
many 0 600 append ab
many 0 600 append_name
many 0 600 append cd
many 0 600 holds_name ab cd
many 0 600 remove
",
    "\
# A file whose handle was closed meanwhile is still an input, and one that another took the place of is a fault.
write las_outside_closed abcdef
size las_outside_closed 6
many 600 600 create
not_created ./las_outside_closed
size las_outside_closed 6
many 600 600 append_name
rename las_outside_600 las_outside_closed
size las_outside_closed none
many 601 599 remove
remove las_outside_closed
",
];

// The first line of a script that is not done, with files of which none is open at first.
fn first_wrong_alone(rt: &HostRuntime, script: &'static str) -> &'static str {
    let Ok(mut said) = Said::new(rt.alloc()) else {
        return "memory";
    };
    let mut files = RealFiles::new(*rt);
    first_wrong(rt, &mut files, &mut said, script)
}

#[test]
fn plain_scripts_are_done(rt: HostRuntime) {
    for script in &SCRIPTS {
        none_is(first_wrong_alone(&rt, *script), &rt);
    }
}

// The standard streams are there and take bytes.
#[test]
fn standard_streams(rt: HostRuntime) {
    let are_there = RealSink::out(&rt).put(b"").is_ok() && RealSink::err(&rt).put(b"").is_ok();
    none_is(if are_there { "" } else { "put" }, &rt);
}
