//! Outputs that are written as drafts.

use crate::said::Said;
use crate::steps::first_wrong;
use crate::words::none_is;
use las_outside::RealFiles;

// The process whose number the names of drafts tell.
const PROCESS: u32 = 7;

// Each script has a folder of its own, which can be removed only if nothing is left in it.
static SCRIPTS: [&str; 12] = [
    "\
# An output is written under a hidden name, and is found there by its own one, which it gets when the run ends.
folder draft_new
create draft_new/out
append draft_new/out abcdef
patch draft_new/out 2 XY
append draft_new/out gh
missing draft_new/out
holds draft_new/.out.las-7-0000.part abXYefgh
size draft_new/out 8
read draft_new/out 1 bXYef
end remove 0 0
holds draft_new/out abXYefgh
remove draft_new/out
remove_folder draft_new
",
    "\
# An older file keeps its bytes until the run ends, and the output has its permissions.
folder draft_older
write draft_older/out old
permit draft_older/out 640
create draft_older/out
append draft_older/out new!
create draft_older/out
append draft_older/out newer
holds draft_older/out old
holds draft_older/.out.las-7-0000.part newer
permitted draft_older/.out.las-7-0000.part 600
end remove 0 0
holds draft_older/out newer
permitted draft_older/out 640
remove draft_older/out
remove_folder draft_older
",
    "\
# Outputs in several folders each get their own name.
folder draft_first
folder draft_second
create draft_first/out
create draft_second/out
create draft_first/more
append draft_second/out second
append draft_first/out first
append draft_first/more more
holds draft_first/.out.las-7-0000.part first
holds draft_second/.out.las-7-0000.part second
holds draft_first/.more.las-7-0000.part more
end remove 0 0
holds draft_first/out first
holds draft_second/out second
holds draft_first/more more
remove draft_first/out
remove draft_first/more
remove draft_second/out
remove_folder draft_first
remove_folder draft_second
",
    "\
# After a run that has failed the drafts are gone, and an older file is as it was.
folder draft_failed
write draft_failed/older old
create draft_failed/out
create draft_failed/older
append draft_failed/out abc
append draft_failed/older new
end remove 2 2
missing draft_failed/out
holds draft_failed/older old
remove draft_failed/older
remove_folder draft_failed
",
    "\
# They are kept if that is asked for, under a name that nothing has.
folder draft_kept
write draft_kept/older old
write draft_kept/older.part other
create draft_kept/out
create draft_kept/older
append draft_kept/out abc
append draft_kept/older new
end keep 4 4
says kept: draft_kept/out.part
says kept: draft_kept/.older.las-7-0000.part
missing draft_kept/out
holds draft_kept/out.part abc
holds draft_kept/older old
holds draft_kept/older.part other
holds draft_kept/.older.las-7-0000.part new
remove draft_kept/out.part
remove draft_kept/older
remove draft_kept/older.part
remove draft_kept/.older.las-7-0000.part
remove_folder draft_kept
",
    "\
# A hidden name that is taken is passed over.
folder draft_taken
write draft_taken/.out.las-7-0000.part other
soft_link none draft_taken/.out.las-7-0001.part
create draft_taken/out
append draft_taken/out abc
holds draft_taken/.out.las-7-0002.part abc
end remove 0 0
holds draft_taken/out abc
holds draft_taken/.out.las-7-0000.part other
missing draft_taken/none
remove draft_taken/out
remove draft_taken/.out.las-7-0000.part
remove draft_taken/.out.las-7-0001.part
remove_folder draft_taken
",
    "\
# An input that is not as it was when the run opened it leaves all as it was.
folder draft_input
write draft_input/first abc
write draft_input/second abc
write draft_input/out old
size draft_input/first 3
size draft_input/second 3
create draft_input/out
append draft_input/out new
write draft_input/second abcd
end keep 0 3
says read fault: draft_input/second
says kept: draft_input/out.part
holds draft_input/out old
remove draft_input/first
remove draft_input/second
remove draft_input/out
remove draft_input/out.part
remove_folder draft_input
",
    "\
# An input is no place for an output, nor is that of another output, by whatever name, nor what is no regular file.
folder draft_place
write draft_place/in abcdef
size draft_place/in 6
hard_link draft_place/in draft_place/hard
soft_link in draft_place/soft
not_created draft_place/in
not_created draft_place/./in
not_created draft_place/hard
not_created draft_place/soft
create draft_place/out
not_created draft_place/./out
write draft_place/older old
hard_link draft_place/older draft_place/other
create draft_place/older
not_created draft_place/other
not_created draft_place
not_created draft_place/none/out
not_created /dev/null
end remove 2 2
holds draft_place/in abcdef
holds draft_place/older old
remove draft_place/in
remove draft_place/hard
remove draft_place/soft
remove draft_place/older
remove draft_place/other
remove_folder draft_place
",
    "\
# An output replaces what a symbolic link leads to, and the link stays, also if it leads to nothing yet.
folder draft_link
folder draft_link/far
write draft_link/older old
soft_link older draft_link/near
soft_link far/new draft_link/away
create draft_link/near
create draft_link/away
append draft_link/near near
append draft_link/away away
holds draft_link/.older.las-7-0000.part near
holds draft_link/far/.new.las-7-0000.part away
end remove 0 0
link draft_link/near older
holds draft_link/older near
link draft_link/away far/new
holds draft_link/far/new away
remove draft_link/near
remove draft_link/away
remove draft_link/older
remove draft_link/far/new
remove_folder draft_link/far
remove_folder draft_link
",
    "\
# What can't get its name is told, with those that have theirs, and a link that came there meanwhile stays.
folder draft_late
create draft_late/first
create draft_late/second
create draft_late/third
append draft_late/first first
soft_link none draft_late/second
end remove 0 4
says write fault: draft_late/second
says written: draft_late/first
says not written: draft_late/second
says not written: draft_late/third
holds draft_late/first first
link draft_late/second none
missing draft_late/third
remove draft_late/first
remove draft_late/second
remove_folder draft_late
",
    "\
# A file that took the place of a draft is not moved, nor removed, and no output gets its name.
folder draft_other
write draft_other/other other
create draft_other/first
create draft_other/second
rename draft_other/other draft_other/.second.las-7-0000.part
end remove 0 4
says write fault: draft_other/second
missing draft_other/first
missing draft_other/second
holds draft_other/.second.las-7-0000.part other
remove draft_other/.second.las-7-0000.part
remove_folder draft_other
",
    "\
# A draft whose handle was closed meanwhile is opened again under its hidden name.
folder draft_closed
create draft_closed/out
append draft_closed/out ab
many 2000 540 write x
many 2000 540 size 1
append draft_closed/out cd
holds draft_closed/.out.las-7-0000.part abcd
many 2000 540 size 1
end remove 0 0
holds draft_closed/out abcd
many 2000 540 remove
remove draft_closed/out
remove_folder draft_closed
",
];

// The first line of a script that is not done, with files of which none is open at first.
fn first_wrong_alone(rt: &HostRuntime, script: &'static str) -> &'static str {
    let Ok(mut said) = Said::new(rt.alloc()) else {
        return "memory";
    };
    let mut files = RealFiles::with_drafts(*rt, PROCESS);
    first_wrong(rt, &mut files, &mut said, script)
}

#[test]
fn draft_scripts_are_done(rt: HostRuntime) {
    for script in &SCRIPTS {
        none_is(first_wrong_alone(&rt, *script), &rt);
    }
}
