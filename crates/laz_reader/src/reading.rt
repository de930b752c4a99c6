//! Bytes of a file.
ghost use Rattle.std.specs.Prelude.{◌≡◌, ◌+◌, ◌-◌, ◌^◌, ◌<◌, ◌≤◌, length, take, drop, vec_len, IfErr, IfOk, OnOk};
ghost use Rattle.las_header.specs.Numbers.{number_at};
ghost use Rattle.las_outside.specs.Files.{WhereKnown};
ghost use Rattle.las_outside.specs.Frames.{IsCalm, Reads};
ghost use Rattle.laz_reader.specs.Reading.{FailsReading};

use las_header::u64_at;
use las_outside::Files;
use laz_forms::Fault;

/// Reads on: `bytes` has the first of the bytes that stand from `from` on, and gets the others up to `total` of them.
pub(crate) fn read_on<F: Files>(
    files: &mut F,
    name: &str,
    from: u64,
    bytes: &mut Vec<u8>,
    total: usize,
) -> Result<(), Fault>
    requires near { from + total < 2 ^ 64 }
    requires more { vec_len bytes.old ≤ total }
    requires within { WhereKnown (F.seen files.old).held name.now (λ file. from + total ≤ length file) }
    ensures len { OnOk result (vec_len bytes.new ≡ total) }
    ensures front { OnOk result (take (vec_len bytes.old) bytes.new.items ≡ bytes.old.items) }
    ensures bytes { OnOk result (WhereKnown (F.seen files.old).held name.now (λ file.
        bytes.old.items ≡ take (vec_len bytes.old) (drop from file) → bytes.new.items ≡ take total (drop from file))) }
    ensures reads { Reads (total - vec_len bytes.old) (F.seen files.old) (F.seen files.new) }
    ensures calm { OnOk result (IsCalm (F.seen files.old) (F.seen files.new)) }
    ensures ends { IfErr result (FailsReading (F.seen files.old) (F.seen files.new)) }
{
    let start = bytes.len();
    bytes.resize(total, 0)?;
    fill_from(files, name, from, bytes, start)
}

// Reads the bytes that stand from `from` on, but for the first `start`, which are there.
fn fill_from<F: Files>(
    files: &mut F,
    name: &str,
    from: u64,
    bytes: &mut [u8],
    start: usize,
) -> Result<(), Fault>
    requires near { from + length bytes.old < 2 ^ 64 }
    requires start { start ≤ length bytes.old }
    requires within { WhereKnown (F.seen files.old).held name.now (λ file. from + length bytes.old ≤ length file) }
    ensures front { OnOk result (take start bytes.new ≡ take start bytes.old) }
    ensures bytes { OnOk result (WhereKnown (F.seen files.old).held name.now (λ file.
        drop start bytes.new ≡ take (length bytes.old - start) (drop (from + start) file))) }
    ensures reads { Reads (length bytes.old - start) (F.seen files.old) (F.seen files.new) }
    ensures calm { OnOk result (IsCalm (F.seen files.old) (F.seen files.new)) }
    ensures ends { IfErr result (FailsReading (F.seen files.old) (F.seen files.new)) }
{
    let (_, rest) = bytes.split_at_mut(start);
    read_exactly(files, name, from + start as u64, rest)
}

/// Reads the bytes that stand from `at` on.
pub(crate) fn read_exactly<F: Files>(
    files: &mut F,
    name: &str,
    at: u64,
    bytes: &mut [u8],
) -> Result<(), Fault>
    requires { WhereKnown (F.seen files.old).held name.now (λ file. at + length bytes.old ≤ length file) }
    ensures bytes { OnOk result (WhereKnown (F.seen files.old).held name.now
        (λ file. bytes.new ≡ take (length bytes.old) (drop at file))) }
    ensures reads { Reads (length bytes.old) (F.seen files.old) (F.seen files.new) }
    ensures calm { OnOk result (IsCalm (F.seen files.old) (F.seen files.new)) }
    ensures ends { IfErr result (FailsReading (F.seen files.old) (F.seen files.new)) }
{
    match files.read_at(name, at, bytes) {
        Ok(()) => Ok(()),
        Err(_) => Err(Fault::Read),
    }
}

/// Reads the `size` bytes that stand from `at` on into a buffer, which then has these alone. It takes memory only if
/// the buffer has no room for them.
pub(crate) fn read_part<F: Files>(
    files: &mut F,
    name: &str,
    at: u64,
    size: usize,
    buffer: &mut Vec<u8>,
) -> Result<(), Fault>
    requires { WhereKnown (F.seen files.old).held name.now (λ file. at + size ≤ length file) }
    ensures len { OnOk result (length buffer.new.items ≡ size) }
    ensures bytes { OnOk result
        (WhereKnown (F.seen files.old).held name.now (λ file. buffer.new.items ≡ take size (drop at file))) }
    ensures reads { Reads size (F.seen files.old) (F.seen files.new) }
    ensures calm { OnOk result (IsCalm (F.seen files.old) (F.seen files.new)) }
    ensures ends { IfErr result (FailsReading (F.seen files.old) (F.seen files.new)) }
{
    buffer.resize(size, 0)?;
    read_exactly(files, name, at, buffer)
}

/// The number of eight bytes that stands at `at`.
pub(crate) fn read_number<F: Files>(files: &mut F, name: &str, at: u64) -> Result<u64, Fault>
    requires { WhereKnown (F.seen files.old).held name.now (λ file. at + 8 ≤ length file) }
    ensures number { IfOk result
        (λ n. WhereKnown (F.seen files.old).held name.now (λ file. n ≡ number_at 8 at file)) }
    ensures reads { Reads 8 (F.seen files.old) (F.seen files.new) }
    ensures calm { OnOk result (IsCalm (F.seen files.old) (F.seen files.new)) }
    ensures ends { IfErr result (FailsReading (F.seen files.old) (F.seen files.new)) }
{
    let mut bytes = [0; 8];
    read_exactly(files, name, at, &mut bytes)?;
    Ok(u64_at(&bytes, 0))
}
