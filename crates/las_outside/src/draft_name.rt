//! The hidden names under which outputs are written.
ghost use Rattle.std.specs.Prelude.{◌≡◌, ℕ, IfOk, take, string_bytes};
ghost use Rattle.las_outside.specs.DraftNames.{IsDraftPath, IsKeptOf, draft_tag};

use std::alloc::{AllocError, Global};

/// How many bytes of an output's name its draft's name has at most. With the 26 bytes that are added it has 255, which
/// is the most that file systems take.
const MOST_KEPT: usize = 229;

/// The path of a draft beside its output: `.NAME.las-PROCESS-NUMBER.part` in the same folder. A long NAME is cut.
pub fn draft_path(
    alloc: Global,
    prefix: &str,
    name: &str,
    process: u32,
    number: u16,
) -> Result<String, AllocError>
    ensures { IfOk result (λ path. IsDraftPath prefix.now name.now (draft_tag process number) (string_bytes path)) }
{
    let tag = tag_of(alloc, process, number)?;
    let mut path = String::from_str(alloc, prefix)?;
    path.push_str(".")?;
    path.push_str(cut(name))?;
    path.push_str(".las-")?;
    path.push_str(&tag)?;
    path.push_str(".part")?;
    Ok(path)
}

// The name, or as much of its beginning as is kept.
fn cut(name: &str) -> &str
    ensures { (n : ℕ) × (IsKeptOf name.now n × (result.now ≡ take n name.now)) }
{
    let end = name.floor_char_boundary(MOST_KEPT);
    &name[..end]
}

// What tells one draft of a name from another.
fn tag_of(alloc: Global, process: u32, number: u16) -> Result<String, AllocError>
    ensures { IfOk result (λ tag. string_bytes tag ≡ draft_tag process number) }
{
    format!(in alloc; "{process}-{number:04x}")
}
