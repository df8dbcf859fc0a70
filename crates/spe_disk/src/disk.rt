//! A disk as the engine sees it.

ghost use Rattle.std.specs.Prelude.{◌≡◌, ℕ, Bool, true, false, Option, IfOk, ◌≤◌, length};
ghost use Rattle.spe_model.specs.Content.{IsFile};
ghost use Rattle.spe_model.specs.Trace.{History};
ghost use Rattle.spe_model.specs.Faults.{HasCause};
ghost use Rattle.spe_disk.specs.Told.{HasPlaces, NothingDone, Finds, Measures, ReadsBytes, Writes, Cuts, MakesJournals};

use spe_model::FileNo;
use thiserror::Error;

/// The outside has failed.
#[derive(Clone, Copy, Debug, PartialEq, Eq, Error)]
#[error("the disk or the output failed")]
pub struct Failed;

/// The files of one database.
///
/// A disk may tell what its files held when it was attached, and what was done to them since. One in
/// memory does, and a real one does not. What the clauses say of bytes holds where the disk tells.
pub trait Disk {
    /// What the files held at attaching and the operations since, where the disk tells it.
    ghost told: { Self → Option History };

    /// Whether the database has been named.
    ghost attached: { Self → Bool };

    /// How often a reading call has failed, up to the greatest number of its type.
    ghost read_faults: { Self → ℕ };

    /// How often an operation has failed, up to the greatest number of its type.
    ghost op_faults: { Self → ℕ };

    /// Names the database, once and first. `false` exactly where there is no such file.
    fn attach(&mut self, name: &str) -> Result<bool, Failed>
        requires { attached self.old ≡ false }
        ensures found { Finds (told self.old) result }
        ensures same { told self.new ≡ told self.old }
        ensures attached { attached self.new ≡ true }
        ensures cause { HasCause (read_faults self.old) (read_faults self.new) result }
        ensures operations { op_faults self.new ≡ op_faults self.old };

    /// The length of a file in bytes, or `None` where the file is absent.
    fn length(&mut self, file: FileNo) -> Result<Option<u64>, Failed>
        requires attached { attached self.old ≡ true }
        requires numbered { IsFile file }
        ensures length { Measures (told self.old) file result }
        ensures same { told self.new ≡ told self.old }
        ensures attached { attached self.new ≡ true }
        ensures cause { HasCause (read_faults self.old) (read_faults self.new) result }
        ensures operations { op_faults self.new ≡ op_faults self.old };

    /// Fills `buf` from byte `at` of a file on, and answers how many bytes there were: fewer than
    /// `buf` has only at the file's end. The rest of `buf` becomes zeros. An absent file has none.
    fn read_at(&mut self, file: FileNo, at: u64, buf: &mut [u8]) -> Result<usize, Failed>
        requires attached { attached self.old ≡ true }
        requires numbered { IsFile file }
        ensures within { IfOk result (λ n. n ≤ length buf.old) }
        ensures bytes { ReadsBytes (told self.old) file at (length buf.old) buf.new result }
        ensures same { told self.new ≡ told self.old }
        ensures attached { attached self.new ≡ true }
        ensures cause { HasCause (read_faults self.old) (read_faults self.new) result }
        ensures operations { op_faults self.new ≡ op_faults self.old };

    /// Writes bytes to a file from byte `at` on. A gap between the file's end and `at` becomes zeros,
    /// and writing no bytes changes nothing. A call that failed has written some first bytes, or none.
    fn write_at(&mut self, file: FileNo, at: u64, bytes: &[u8]) -> Result<(), Failed>
        requires attached { attached self.old ≡ true }
        requires numbered { IsFile file }
        ensures written { Writes (told self.old) (told self.new) file at bytes.now result }
        ensures attached { attached self.new ≡ true }
        ensures cause { HasCause (op_faults self.old) (op_faults self.new) result }
        ensures readings { read_faults self.new ≡ read_faults self.old };

    /// Cuts a file to at most this many bytes; an absent file becomes one of none. A call that failed
    /// has cut it or has not.
    fn cut(&mut self, file: FileNo, length: u64) -> Result<(), Failed>
        requires attached { attached self.old ≡ true }
        requires numbered { IsFile file }
        ensures cut { Cuts (told self.old) (told self.new) file length result }
        ensures attached { attached self.new ≡ true }
        ensures cause { HasCause (op_faults self.old) (op_faults self.new) result }
        ensures readings { read_faults self.new ≡ read_faults self.old };

    /// Makes each absent journal, with no bytes, in ascending order, and answers how many there were. A
    /// call that failed has made some first ones, or none.
    fn make_journals(&mut self) -> Result<u8, Failed>
        requires attached { attached self.old ≡ true }
        ensures within { IfOk result (λ n. n ≤ 16) }
        ensures made { MakesJournals (told self.old) (told self.new) result }
        ensures attached { attached self.new ≡ true }
        ensures cause { HasCause (op_faults self.old) (op_faults self.new) result }
        ensures readings { read_faults self.new ≡ read_faults self.old };

    /// Nothing was done before the database is named.
    ghost fresh: { (d : Self) → attached d ≡ false → NothingDone (told d) };

    /// A content has a place for each file, whether it is there or not: the database and sixteen journals.
    ghost whole: { (d : Self) → HasPlaces (told d) };
}
