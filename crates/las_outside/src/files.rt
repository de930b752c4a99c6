//! Files by name, as the product sees them.
ghost use Rattle.std.specs.Prelude.{◌≡◌, ◌⊎◌, ◌+◌, ◌≤◌, ◌++◌, [], ℕ, length, take, drop, IfOk, OnOk, OnErr};
ghost use Rattle.las_outside.specs.Files.{WhereKnown, IsMissing, bytes_of, with_patch};
ghost use Rattle.las_outside.specs.Outside.{Outside, Later, with_bytes, with_read_fault, with_write_fault, with_asked};

use crate::Failed;

/// Files by name. A name is a text, and to contracts two names are two files. So if a file of the system may have two
/// names, `create` is to fail for the second, and change nothing.
///
/// Clauses on content hold if the object tells what its files hold; one that tells it once goes on to. No call changes
/// another name than its own. A call that fails raises its own count of faults by one, and a call that succeeds raises
/// none. The counts never fall, and stop at 2^64 - 1.
pub trait Files {
    /// What is seen of the files: what they hold, the counts of failed reads and failed writes, and how many bytes were
    /// asked for.
    ghost seen: { Self → Outside };

    /// The length of a file, in bytes.
    ///
    /// For a name that is known not to be held it is `Failed` and raises no count.
    fn size(&mut self, name: &str) -> Result<u64, Failed>
        ensures ok { OnOk result (seen self.new ≡ seen self.old) }
        ensures length { IfOk result
            (λ n. WhereKnown (seen self.old).held name.now (λ bytes. n ≡ length bytes)) }
        ensures err { OnErr result
            ((IsMissing (seen self.old).held name.now × (seen self.new ≡ seen self.old))
            ⊎ ((IsMissing (seen self.old).held name.now → ⊥) × (seen self.new ≡ with_read_fault (seen self.old)))) }
        ensures later { Later (seen self.old) (seen self.new) };

    /// Fills the buffer with the bytes from `pos` on. After `Failed` the buffer is unspecified.
    ///
    /// The length of the buffer is added to the bytes that were asked for, also if the call fails.
    fn read_at(&mut self, name: &str, pos: u64, buf: &mut [u8]) -> Result<(), Failed>
        requires { WhereKnown (seen self.old).held name.now (λ bytes. pos + length buf.old ≤ length bytes) }
        ensures ok { OnOk result (seen self.new ≡ with_asked (seen self.old) (length buf.old)) }
        ensures bytes { OnOk result (WhereKnown (seen self.old).held name.now
            (λ bytes. buf.new ≡ take (length buf.old) (drop pos bytes))) }
        ensures err { OnErr result
            (seen self.new ≡ with_read_fault (with_asked (seen self.old) (length buf.old))) }
        ensures later { Later (seen self.old) (seen self.new) };

    /// Makes the name hold no bytes. After `Failed` it is as before or holds no bytes.
    fn create(&mut self, name: &str) -> Result<(), Failed>
        ensures ok { OnOk result (seen self.new ≡ with_bytes (seen self.old) name.now []) }
        ensures err { OnErr result ((seen self.new ≡ with_write_fault (seen self.old))
            ⊎ (seen self.new ≡ with_write_fault (with_bytes (seen self.old) name.now []))) }
        ensures later { Later (seen self.old) (seen self.new) };

    /// Adds bytes at the end. After `Failed` a prefix of them was added.
    fn append(&mut self, name: &str, bytes: &[u8]) -> Result<(), Failed>
        requires { WhereKnown (seen self.old).held name.now (λ _. Unit {0}) }
        ensures ok { OnOk result (seen self.new
            ≡ with_bytes (seen self.old) name.now (bytes_of (seen self.old).held name.now ++ bytes.now)) }
        ensures err { OnErr result ((n : ℕ) × (seen self.new ≡ with_write_fault (with_bytes (seen self.old) name.now
            (bytes_of (seen self.old).held name.now ++ take n bytes.now)))) }
        ensures later { Later (seen self.old) (seen self.new) };

    /// Replaces the bytes from `pos` on. After `Failed` a prefix of the new ones has replaced what stood there.
    fn patch(&mut self, name: &str, pos: u64, bytes: &[u8]) -> Result<(), Failed>
        requires { WhereKnown (seen self.old).held name.now (λ old. pos + length bytes.now ≤ length old) }
        ensures ok { OnOk result (seen self.new ≡ with_bytes (seen self.old) name.now
            (with_patch (bytes_of (seen self.old).held name.now) pos bytes.now)) }
        ensures err { OnErr result ((n : ℕ) × (seen self.new ≡ with_write_fault (with_bytes (seen self.old) name.now
            (with_patch (bytes_of (seen self.old).held name.now) pos (take n bytes.now))))) }
        ensures later { Later (seen self.old) (seen self.new) };
}
