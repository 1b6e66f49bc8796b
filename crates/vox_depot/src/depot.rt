//! The traits of the environment.
ghost use Rattle.std.specs.Prelude.{◌≡◌, ℕ, ◌≤◌, List, Option, length, take, IfOk, OnOk, OnErr, IsErrOf};
ghost use Rattle.std.specs.Io.KnownBytes.{append_known};
ghost use Rattle.vox_depot.specs.Causes.{Rose};
ghost use Rattle.vox_depot.specs.Files.{Files, IfTold, IsMissing, IsPiece, stored, others};

/// The reason why a fetch failed.
#[derive(Clone, Copy, Debug, PartialEq, Eq)]
pub enum FetchFault {
    /// The depot's files are visible, and there is none of that name.
    Missing,
    /// The depot failed, and its count of faults rose.
    Failed,
}

/// The depot failed to store, and its counts of faults and of failed stores rose. The state of that file is unknown now.
#[derive(Clone, Copy, Debug, PartialEq, Eq)]
pub struct StoreFault;

/// The sink failed, and its count of faults rose. It may have written a prefix.
#[derive(Clone, Copy, Debug, PartialEq, Eq)]
pub struct SinkFault;

/// Files by name.
pub trait Depot {
    /// The files, if the depot makes them visible.
    ghost files: { Self → Option Files };

    /// The number of failures. The count stays at the end of `u64`.
    ghost faults: { Self → ℕ };

    /// The number of failed stores. No fetch changes this count, which stays at the end of `u64`.
    ghost failed_stores: { Self → ℕ };

    /// The names that may be fetched. No call changes them.
    ghost may_fetch: { List ℕ → Type 0 };

    /// The names that may be stored. No call changes them.
    ghost may_store: { List ℕ → Type 0 };

    /// Reads from byte `from` of the file on into the front of the buffer, and returns the number of bytes read. It is 0 only at or
    /// past the file's end, or if the buffer is empty.
    fn fetch(&mut self, name: &str, from: u64, buf: &mut [u8]) -> Result<usize, FetchFault>
        requires { may_fetch name.now }
        ensures bound { IfOk result (λ n. n ≤ length buf.new) }
        ensures piece { IfOk result (λ n. IfTold (files self.old) name.now
            (λ bytes. IsPiece bytes from n buf.new)) }
        ensures missing { IsErrOf result FetchFault.Missing → IsMissing (files self.old) name.now }
        ensures failed { IsErrOf result FetchFault.Failed → Rose (faults self.old) (faults self.new) }
        ensures files { files self.new ≡ files self.old }
        ensures later { faults self.old ≤ faults self.new }
        ensures stores { failed_stores self.new ≡ failed_stores self.old };

    /// Makes these bytes the whole file of that name.
    fn store(&mut self, name: &str, bytes: &[u8]) -> Result<(), StoreFault>
        requires { may_store name.now }
        ensures stored { OnOk result (files self.new ≡ stored (files self.old) name.now bytes.now) }
        ensures others { OnErr result (others (files self.new) name.now ≡ others (files self.old) name.now) }
        ensures failed { OnErr result (Rose (faults self.old) (faults self.new)) }
        ensures lost { OnErr result (Rose (failed_stores self.old) (failed_stores self.new)) }
        ensures later { faults self.old ≤ faults self.new }
        ensures stores { failed_stores self.old ≤ failed_stores self.new };
}

/// An output for bytes.
pub trait Sink {
    /// The bytes written so far, if the sink makes them visible.
    ghost written: { Self → Option (List ℕ) };

    /// The number of failures. The count stays at the end of `u64`.
    ghost faults: { Self → ℕ };

    /// Writes all the bytes, or fails and may have written a prefix.
    fn put(&mut self, bytes: &[u8]) -> Result<(), SinkFault>
        ensures written { OnOk result (written self.new ≡ append_known (written self.old) bytes.now) }
        ensures part { OnErr result ((n : ℕ)
            × (written self.new ≡ append_known (written self.old) (take n bytes.now))) }
        ensures failed { OnErr result (Rose (faults self.old) (faults self.new)) }
        ensures later { faults self.old ≤ faults self.new };
}
