//! Steps of scripts, and what plays them.
//!
//! A script is a text with files of its own. A line that begins with `#` says what it shows, and each other one is a
//! step. The system itself does these:
//!
//! - `write NAME TEXT`, `hard_link NAME OTHER`, `soft_link TEXT NAME`, `rename NAME OTHER` and `remove NAME`.
//! - `folder NAME` and `remove_folder NAME`, of one in which nothing is left. `permit NAME MODE`: it gives permissions,
//!   in octal digits.
//! - `holds NAME TEXT`: it reads the file, which holds the text. `holds_name NAME FIRST SECOND`: the same of the first
//!   text, the file's own name and the second text.
//! - `missing NAME`: nothing stands there. `link NAME TEXT`: a symbolic link of this text does. `permitted NAME MODE`:
//!   a file with these permissions does.
//!
//! The files are asked for the others:
//!
//! - `create NAME`, `append NAME TEXT`, `append_name NAME`, which appends its own name, and `patch NAME AT TEXT`.
//! - `not_created NAME`: it is not created.
//! - `size NAME SIZE`: how long it is, or `none` if that is not answered.
//! - `read NAME AT TEXT`: the five bytes from a place on, or `none` if they are not read.
//! - `end HOW STATUS ANSWER`: a run ends that has this status so far, and answers that one. HOW is `keep` if the drafts
//!   of a failed run are kept. `says LINE`: this is the next line on standard error. Each has to be named by a step
//!   before the script ends.
//!
//! `many FIRST COUNT STEP REST` does a step with COUNT files: the name `las_outside_NUMBER` stands before the rest, and
//! the numbers begin with FIRST. 600 files are more than are open at a time.

ghost use Rattle.std.specs.Prelude.{◌≡◌, None};

use crate::said::Said;
use crate::system::system_does;
use crate::words::{number, pair, status};
use las_outside::{Files, RealFiles};
use std::alloc::AllocError;
use std::fs::File;
use std::rt::Files as System;

fn is_created<R: System<File = File> + AllocGlobal + Drop>(
    files: &mut RealFiles<R>,
    name: &str,
) -> bool
    requires { files.old.outside.held ≡ None }
    ensures { files.new.outside.held ≡ None }
{
    files.create(name).is_ok()
}

fn is_appended<R: System<File = File> + AllocGlobal + Drop>(
    files: &mut RealFiles<R>,
    name: &str,
    text: &str,
) -> bool
    requires { files.old.outside.held ≡ None }
    ensures { files.new.outside.held ≡ None }
{
    files.append(name, text.as_bytes()).is_ok()
}

// Whether the second word of a text, and what follows it, is written over a file from the place on that is the first.
fn is_patched<R: System<File = File> + AllocGlobal + Drop>(
    files: &mut RealFiles<R>,
    name: &str,
    text: &str,
) -> bool
    requires { files.old.outside.held ≡ None }
    ensures { files.new.outside.held ≡ None }
{
    let (at, patch) = pair(text);
    files
        .patch(name, number(at) as u64, patch.as_bytes())
        .is_ok()
}

// Whether a file has the size of a text, or none.
fn has_size<R: System<File = File> + AllocGlobal + Drop>(
    files: &mut RealFiles<R>,
    name: &str,
    text: &str,
) -> bool
    requires { files.old.outside.held ≡ None }
    ensures { files.new.outside.held ≡ None }
{
    match files.size(name) {
        Ok(size) => text != "none" && size == number(text) as u64,
        Err(_) => text == "none",
    }
}

// Whether five bytes of a file are those of a text, a place and then the bytes from there on, or `none` if not read.
fn is_read<R: System<File = File> + AllocGlobal + Drop>(
    files: &mut RealFiles<R>,
    name: &str,
    text: &str,
) -> bool
    requires { files.old.outside.held ≡ None }
    ensures { files.new.outside.held ≡ None }
{
    let (at, wanted) = pair(text);
    let mut bytes = [0; 5];
    match files.read_at(name, number(at) as u64, &mut bytes) {
        Ok(()) => bytes.as_slice() == wanted.as_bytes(),
        Err(_) => wanted == "none",
    }
}

// Whether the files do a step with the bytes of a file, or the system does it.
fn bytes_are_done<R: System<File = File> + AllocGlobal + Drop>(
    rt: &R,
    files: &mut RealFiles<R>,
    step: &str,
    name: &str,
    text: &str,
) -> bool
    requires { files.old.outside.held ≡ None }
    ensures { files.new.outside.held ≡ None }
{
    match step {
        "append" => is_appended(files, name, text),
        "append_name" => is_appended(files, name, name),
        "patch" => is_patched(files, name, text),
        "read" => is_read(files, name, text),
        _ => system_does(rt, step, name, text),
    }
}

// Whether a step is done, by the files or by the system.
fn is_done<R: System<File = File> + AllocGlobal + Drop>(
    rt: &R,
    files: &mut RealFiles<R>,
    step: &str,
    name: &str,
    text: &str,
) -> bool
    requires { files.old.outside.held ≡ None }
    ensures { files.new.outside.held ≡ None }
{
    match step {
        "create" => is_created(files, name),
        "not_created" => !is_created(files, name),
        "size" => has_size(files, name, text),
        _ => bytes_are_done(rt, files, step, name, text),
    }
}

// The name of the file of this number.
fn numbered<R: System<File = File> + AllocGlobal + Drop>(
    rt: &R,
    number: usize,
) -> Result<String, AllocError> {
    format!(in rt.alloc(); "las_outside_{number}")
}

// Whether a step is done with the file of a number.
fn is_done_by_number<R: System<File = File> + AllocGlobal + Drop>(
    rt: &R,
    files: &mut RealFiles<R>,
    number: usize,
    step: &str,
) -> bool
    requires { files.old.outside.held ≡ None }
    ensures { files.new.outside.held ≡ None }
{
    let (step, text) = pair(step);
    match numbered(rt, number) {
        Ok(name) => is_done(rt, files, step, name.as_str(), text),
        Err(_) => false,
    }
}

// Whether a step is done with many files.
fn are_done<R: System<File = File> + AllocGlobal + Drop>(
    rt: &R,
    files: &mut RealFiles<R>,
    text: &str,
) -> bool
    requires { files.old.outside.held ≡ None }
    ensures { files.new.outside.held ≡ None }
{
    let (first, rest) = pair(text);
    let (count, step) = pair(rest);
    let (first, count) = (number(first), number(count));
    for index in first..first.saturating_add(count) {
        if !is_done_by_number(rt, files, index, step) {
            return false;
        }
    }
    count > 0
}

// Whether a run ends with the answer of a text, the status before and the answer.
fn is_ended<R: System<File = File> + AllocGlobal + Drop>(
    files: &mut RealFiles<R>,
    said: &mut Said,
    how: &str,
    text: &str,
) -> bool
    requires { files.old.outside.held ≡ None }
    ensures { files.new.outside.held ≡ None }
{
    let (before, answer) = pair(text);
    files.end(status(before), how == "keep", &mut said.stream) == status(answer)
}

// Whether a line of a script is done.
fn line_is_done<R: System<File = File> + AllocGlobal + Drop>(
    rt: &R,
    files: &mut RealFiles<R>,
    said: &mut Said,
    line: &str,
) -> bool
    requires { files.old.outside.held ≡ None }
    ensures { files.new.outside.held ≡ None }
{
    let (word, rest) = pair(line);
    let (name, text) = pair(rest);
    match word {
        "#" => true,
        "many" => are_done(rt, files, rest),
        "end" => is_ended(files, said, name, text),
        "says" => said.is_next(rest),
        _ => is_done(rt, files, word, name, text),
    }
}

// The first line of a script that is not done, or none.
pub(crate) fn first_wrong<R: System<File = File> + AllocGlobal + Drop>(
    rt: &R,
    files: &mut RealFiles<R>,
    said: &mut Said,
    script: &'static str,
) -> &'static str
    requires { files.old.outside.held ≡ None }
{
    for line in script.lines() {
        if !line_is_done(rt, files, said, line) {
            return line;
        }
    }
    if said.is_named() {
        ""
    } else {
        "a line on standard error that no step names"
    }
}
