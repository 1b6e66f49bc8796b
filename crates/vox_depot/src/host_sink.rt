//! An output of the system as a sink.
ghost use Rattle.std.specs.Prelude.{◌≡◌, ◌≤◌, OnOk, OnErr, None, if◌then◌else◌, is_err};
ghost use Rattle.std.specs.Io.KnownBytes.{Appends};
ghost use Rattle.vox_depot.specs.Causes.{Rose, next_count};

use crate::depot::{Sink, SinkFault};
use std::io;
use std::io::Write;
use std::marker::Model;

/// An output of the system, as standard output. Its content is not visible. Contracts see the number of failures, including writes
/// that accept none of some bytes.
#[derive(Drop)]
pub struct HostSink<W: Write + Drop> {
    inner: W,
    faults: u64,
}

impl<W: Write + Drop> Model for HostSink<W> {
    ghost use Rattle.std.specs.Prelude.{ℕ};

    ghost Value = { ℕ };

    ghost view = { λ s. s.faults };
}

impl<W: Write + Drop> HostSink<W> {
    /// Returns a sink over this output, without failures.
    pub fn new(inner: W) -> HostSink<W>
        ensures { result ≡ 0 }
    {
        HostSink { inner, faults: 0 }
    }
}

// Writes all the bytes, again if a signal interrupts it. A write that accepts nothing is an error.
fn write_through<W: Write>(to: &mut W, bytes: &[u8]) -> io::Result<()>
    ensures { OnOk result (Appends (W.contents to.old) (W.contents to.new) bytes.now) }
{
    to.write_all(bytes)?;
    to.flush()
}

impl<W: Write + Drop> Sink for HostSink<W> {
    ghost written = { λ _. None };

    ghost faults = { λ s. s };

    fn put(&mut self, bytes: &[u8]) -> Result<(), SinkFault>
        ensures failed { OnErr result (Rose self.old self.new) }
        ensures later { self.old ≤ self.new }
        ensures faults { self.new ≡ (if is_err result then next_count self.old else self.old) }
    {
        if write_through(&mut self.inner, bytes).is_err() {
            self.faults = self.faults.saturating_add(1);
            return Err(SinkFault);
        }
        Ok(())
    }
}
