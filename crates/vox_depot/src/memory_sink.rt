//! A sink in memory, whose puts fail by a list of numbers.
ghost use Rattle.std.specs.Prelude.{◌≡◌, ◌⊎◌, ◌↔◌, ◌/◌, ◌≤◌, ◌<◌, [], ◌++◌, Some, length, take, Contains, OnOk, OnErr, IsErr, if◌then◌else◌, is_err};
ghost use Rattle.vox_depot.specs.Causes.{Rose, next_count, IsEarly};

use crate::depot::{Sink, SinkFault};
use std::alloc::Global;
use std::marker::Model;

/// Bytes in memory, visible to contracts. The puts are numbered from 0, and those whose number is in its list fail after the first
/// half of their bytes, rounded down.
#[derive(Drop)]
pub struct MemorySink {
    bytes: Vec<u8>,
    fails: Vec<u64>,
    calls: u64,
    faults: u64,
    starved: u64,
}

impl Model for MemorySink {
    ghost use Rattle.std.specs.Prelude.{◌≤◌};
    ghost use Rattle.vox_depot.specs.Memory.{MemoryBytes, memory_bytes_code};

    ghost Value = { MemoryBytes };

    ghost coded = { memory_bytes_code };

    ghost view = { λ s. record {
      bytes = s.bytes.items;
      fails = s.fails.items;
      calls = s.calls;
      faults = s.faults;
      starved = s.starved;
    } };

    ghost invariant = { λ s. s.starved ≤ s.calls };
}

impl MemorySink {
    /// Returns an empty sink. The puts with these numbers fail.
    pub fn new(alloc: Global, fails: Vec<u64>) -> MemorySink
        ensures { result ≡ record { bytes = []; fails = fails.items; calls = 0; faults = 0; starved = 0 } }
    {
        MemorySink {
            bytes: Vec::new(alloc),
            fails,
            calls: 0,
            faults: 0,
            starved: 0,
        }
    }

    /// Returns the bytes written so far.
    pub fn bytes(&self) -> &[u8]
        ensures { result.now ≡ self.now.bytes }
    {
        &self.bytes
    }

    /// Returns the number of puts that ran out of memory. The count stays at the end of `u64`.
    pub fn starved(&self) -> u64
        ensures { result ≡ self.now.starved }
    {
        self.starved
    }
}

impl Sink for MemorySink {
    ghost written = { λ s. Some s.bytes };

    ghost faults = { λ s. s.faults };

    fn put(&mut self, bytes: &[u8]) -> Result<(), SinkFault>
        ensures ok { OnOk result (self.new.bytes ≡ self.old.bytes ++ bytes.now) }

        // It fails exactly by its number or out of memory, which is counted.
        ensures fails_exactly { IsEarly self.old.calls → (IsErr result
            ↔ (Contains self.old.fails self.old.calls ⊎ (self.old.starved < self.new.starved))) }
        ensures listed { Contains self.old.fails self.old.calls → IsErr result }
        ensures cause { OnErr result (Contains self.old.fails self.old.calls
            ⊎ (self.new.starved ≡ next_count self.old.starved)) }
        ensures starved_ok { OnOk result (self.new.starved ≡ self.old.starved) }

        // By its number it writes half, and out of memory nothing.
        ensures half { Contains self.old.fails self.old.calls
            → ((self.new.starved ≡ self.old.starved)
            × (self.new.bytes ≡ self.old.bytes ++ take (length bytes.now / 2) bytes.now))
            ⊎ ((self.new.starved ≡ next_count self.old.starved) × (self.new.bytes ≡ self.old.bytes)) }
        ensures unlisted { (Contains self.old.fails self.old.calls → ⊥)
            → OnErr result (self.new.bytes ≡ self.old.bytes) }
        ensures nothing { self.old.starved < self.new.starved → self.new.bytes ≡ self.old.bytes }
        ensures part { OnErr result ((self.new.bytes ≡ self.old.bytes ++ take (length bytes.now / 2) bytes.now)
            ⊎ (self.new.bytes ≡ self.old.bytes)) }

        // Only a fault is counted.
        ensures fails { self.new.fails ≡ self.old.fails }
        ensures calls { self.new.calls ≡ next_count self.old.calls }
        ensures faults { self.new.faults
            ≡ (if is_err result then next_count self.old.faults else self.old.faults) }
        ensures failed { OnErr result (Rose self.old.faults self.new.faults) }
        ensures later { self.old.faults ≤ self.new.faults }
    {
        let number = self.calls;
        self.calls = number.saturating_add(1);
        if self.fails.contains(&number) {
            self.faults = self.faults.saturating_add(1);
            let half = &bytes[..bytes.len() / 2];
            if self.bytes.extend_from_slice(half).is_err() {
                self.starved = self.starved.saturating_add(1);
            }
            return Err(SinkFault);
        }
        if self.bytes.extend_from_slice(bytes).is_err() {
            self.faults = self.faults.saturating_add(1);
            self.starved = self.starved.saturating_add(1);
            return Err(SinkFault);
        }
        Ok(())
    }
}
