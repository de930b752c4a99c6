//! Steps that the system itself does: it makes, moves and removes files, and shows what they are.

use crate::words::{pair, permissions};
use std::fs::{self, File, Permissions};
use std::io::ErrorKind;
use std::os::unix::fs::{MetadataExt, PermissionsExt, symlink};
use std::rt::Files as System;

// Whether the system reads a file, and it holds this text.
fn holds<R: System<File = File> + AllocGlobal + Drop>(rt: &R, name: &str, text: &str) -> bool {
    match fs::read(rt, name) {
        Ok(bytes) => bytes.as_slice() == text.as_bytes(),
        Err(_) => false,
    }
}

// Whether it holds the first word of a text, its own name, and what follows the first word.
fn holds_name<R: System<File = File> + AllocGlobal + Drop>(rt: &R, name: &str, text: &str) -> bool {
    let (first, second) = pair(text);
    match format!(in rt.alloc(); "{first}{name}{second}") {
        Ok(wanted) => holds(rt, name, wanted.as_str()),
        Err(_) => false,
    }
}

fn is_written<R: System<File = File> + AllocGlobal + Drop>(rt: &R, name: &str, text: &str) -> bool {
    fs::write(rt, name, text.as_bytes()).is_ok()
}

fn is_removed<R: System<File = File> + AllocGlobal + Drop>(rt: &R, name: &str) -> bool {
    fs::remove_file(rt, name).is_ok()
}

fn is_renamed<R: System<File = File> + AllocGlobal + Drop>(
    rt: &R,
    name: &str,
    other: &str,
) -> bool {
    fs::rename(rt, name, other).is_ok()
}

fn is_linked<R: System<File = File> + AllocGlobal + Drop>(rt: &R, name: &str, other: &str) -> bool {
    fs::hard_link(rt, name, other).is_ok()
}

fn is_linked_softly<R: System<File = File> + AllocGlobal + Drop>(
    rt: &R,
    name: &str,
    other: &str,
) -> bool {
    symlink(rt, name, other).is_ok()
}

// Whether nothing stands under a name, also no link.
fn is_missing<R: System<File = File> + AllocGlobal + Drop>(rt: &R, name: &str) -> bool {
    match fs::symlink_metadata(rt, name) {
        Ok(_) => false,
        Err(error) => error.kind() == ErrorKind::NotFound,
    }
}

// Whether a name is a symbolic link of this text.
fn is_link_to<R: System<File = File> + AllocGlobal + Drop>(rt: &R, name: &str, text: &str) -> bool {
    match fs::read_link(rt, name) {
        Ok(path) => path.into_string().as_str() == text,
        Err(_) => false,
    }
}

// Whether a file gets these permissions.
fn is_given<R: System<File = File> + AllocGlobal + Drop>(rt: &R, name: &str, text: &str) -> bool {
    fs::set_permissions(rt, name, Permissions::from_mode(permissions(text))).is_ok()
}

// Whether a file has these permissions.
fn has_permissions<R: System<File = File> + AllocGlobal + Drop>(
    rt: &R,
    name: &str,
    text: &str,
) -> bool {
    match fs::metadata(rt, name) {
        Ok(found) => found.mode() & 0o777 == permissions(text),
        Err(_) => false,
    }
}

// Whether the system makes or removes a folder, or tells what stands under a name.
fn system_tells<R: System<File = File> + AllocGlobal + Drop>(
    rt: &R,
    step: &str,
    name: &str,
    text: &str,
) -> bool {
    match step {
        "folder" => fs::create_dir(rt, name).is_ok(),
        "remove_folder" => fs::remove_dir(rt, name).is_ok(),
        "missing" => is_missing(rt, name),
        "link" => is_link_to(rt, name, text),
        "permit" => is_given(rt, name, text),
        "permitted" => has_permissions(rt, name, text),
        _ => false,
    }
}

// Whether the system gives a file another name.
fn system_names<R: System<File = File> + AllocGlobal + Drop>(
    rt: &R,
    step: &str,
    name: &str,
    other: &str,
) -> bool {
    match step {
        "hard_link" => is_linked(rt, name, other),
        "soft_link" => is_linked_softly(rt, name, other),
        "rename" => is_renamed(rt, name, other),
        _ => system_tells(rt, step, name, other),
    }
}

// Whether the system does a step of its own.
pub(crate) fn system_does<R: System<File = File> + AllocGlobal + Drop>(
    rt: &R,
    step: &str,
    name: &str,
    text: &str,
) -> bool {
    match step {
        "write" => is_written(rt, name, text),
        "remove" => is_removed(rt, name),
        "holds" => holds(rt, name, text),
        "holds_name" => holds_name(rt, name, text),
        _ => system_names(rt, step, name, text),
    }
}
