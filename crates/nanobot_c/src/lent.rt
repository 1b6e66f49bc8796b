//! The caller's bytes as files.
ghost use Rattle.std.specs.Prelude.{◌≡◌, option_map};
ghost use Rattle.vox_depot.specs.Files.{content};
ghost use Rattle.nanobot_words.specs.Parsing.{side_of};
ghost use Rattle.nanobot_c.specs.Lent.{lent_files, side_named};

use nanobot_words::Side;
use vox_depot::{Depot, FetchFault, StoreFault, copy_piece};

/// Bytes that a caller lends for a call: the files `s`, `t` and `b`, which are only read.
#[derive(Clone, Copy)]
pub struct Lent<'a> {
    pub source: &'a [u8],
    pub target: &'a [u8],
    pub trace: &'a [u8],
}

/// Returns the side of the file of this name, or of the empty model if the file has no bytes.
pub fn side(name: &'static str, bytes: &[u8]) -> Side<'static>
    ensures { side_of result ≡ side_named name.now bytes.now }
{
    if bytes.is_empty() {
        return Side::Empty;
    }
    Side::Named(name)
}

impl<'a> Lent<'a> {
    /// Returns the file of this name.
    fn file(&self, name: &str) -> Option<&'a [u8]>
        ensures { option_map (λ x. x.now) result ≡ content (lent_files self.now) name.now }
    {
        match name {
            "s" => Some(self.source),
            "t" => Some(self.target),
            "b" => Some(self.trace),
            _ => None,
        }
    }
}

/// The files of lent bytes. Storing a file is a fault, and is counted.
#[derive(Drop)]
pub struct LentFiles<'a> {
    pub lent: Lent<'a>,
    pub faults: u64,
}

impl<'a> Depot for LentFiles<'a> {
    ghost use Rattle.std.specs.Prelude.{Some, ⊤};
    ghost use Rattle.nanobot_c.specs.Lent.{lent_files};

    ghost files = { λ d. Some (lent_files d.lent) };

    ghost faults = { λ d. d.faults };

    ghost failed_stores = { λ d. d.faults };

    ghost may_fetch = { λ _. ⊤ };

    ghost may_store = { λ _. ⊤ };

    fn fetch(&mut self, name: &str, from: u64, buf: &mut [u8]) -> Result<usize, FetchFault> {
        match self.lent.file(name) {
            Some(bytes) => Ok(copy_piece(bytes, from, buf)),
            None => Err(FetchFault::Missing),
        }
    }

    fn store(&mut self, _name: &str, _bytes: &[u8]) -> Result<(), StoreFault> {
        self.faults = self.faults.saturating_add(1);
        Err(StoreFault)
    }
}
