//! Decoding a trace in pieces.
ghost use Rattle.std.specs.Prelude.{◌≡◌, ◌↔◌, ℕ, ◌+◌, ◌-◌, ◌<◌, ◌≤◌, ◌^◌, true, IsFalse, List, [], ◌∷◌, ◌++◌, length, min, take as front_of};
ghost use Rattle.trace_codec.specs.declared.decoder.Fed.{Fed};
ghost use Rattle.trace_codec.specs.Decoder.{AnswersPiece, EndsTrace, IsBetween, decoder_after, fresh, bytes_taken};
ghost use Rattle.trace_codec.specs.Front.{TakesWhole};
ghost use Rattle.trace_codec.specs.One.{BeginsWith};

use crate::fault::TraceRefusal;
use crate::one::{One, decode_by, decode_one};
use arrayvec::ArrayVec;
use nano_spec::Command;
use std::marker::Model;

/// The answer of a decoder to a piece.
#[derive(Clone, Copy, PartialEq, Eq, Debug)]
pub enum Fed {
    /// The held bytes and the first `used` bytes of the piece spell the command. The caller feeds the rest of the piece next.
    Got { command: Command, used: usize },
    /// The whole piece was taken. The caller feeds the next piece.
    All,
    /// The bytes at the offset begin no command. From now on every call answers this.
    Bad { offset: u64 },
}

/// Cuts a trace in pieces into commands. It holds at most three bytes: the front of a command that continues in the next piece.
#[derive(Debug, Drop)]
pub struct Decoder {
    held: ArrayVec<u8, 3>,
    offset: u64,
    failed: bool,
}

impl Model for Decoder {
    ghost use Rattle.nano_spec.specs.Cutting.{BeginsSpelling};
    ghost use Rattle.trace_codec.specs.Decoder.{DecoderState};

    ghost Value = { DecoderState };

    ghost view = { λ d. record { held = d.held.items; offset = d.offset; failed = d.failed } };

    ghost invariant = { λ d. BeginsSpelling d.held.items };
}

impl Decoder {
    /// Returns a decoder that has taken nothing.
    pub fn new() -> Decoder
        ensures { result ≡ fresh }
    {
        Decoder {
            held: ArrayVec::new(),
            offset: 0,
            failed: false,
        }
    }

    /// Takes the next bytes of the trace, up to the end of a command. The bytes of a trace are fewer than 2^63.
    #[inline(always)]
    pub fn feed(&mut self, piece: &[u8]) -> Fed
        requires { self.old.offset + length self.old.held + length piece.now < 2 ^ 63 }
        // The answer is true of the bytes.
        ensures answer { AnswersPiece self.old piece.now result }
        // No other answer is.
        ensures only { (other : Fed) → AnswersPiece self.old piece.now other → other ≡ result }
        ensures after { self.new ≡ decoder_after self.old piece.now result }
        ensures held { length self.new.held ≤ 3 }
        ensures taken { self.new.offset + length self.new.held
            ≡ self.old.offset + length self.old.held + bytes_taken piece.now result }
    {
        if self.failed {
            return Fed::Bad {
                offset: self.offset,
            };
        }
        self.take(self.front(piece), piece)
    }

    /// Returns whether the next byte of the trace begins a command: nothing is held, and no command was refused.
    #[inline(always)]
    pub fn is_between(&self) -> bool
        ensures { result ≡ true ↔ IsBetween self.now }
    {
        !self.failed && self.held.is_empty()
    }

    /// [`Decoder::feed`] for a piece that begins with this byte, between commands. If the byte is a constant, all lookups by it are
    /// constants too.
    #[inline(always)]
    pub fn feed_from(&mut self, head: u8, piece: &[u8]) -> Fed
        requires between { IsBetween self.old }
        requires head { (rest : List ℕ) × (piece.now ≡ head ∷ rest) }
        requires few { self.old.offset + length self.old.held + length piece.now < 2 ^ 63 }
        ensures answer { AnswersPiece self.old piece.now result }
        ensures after { self.new ≡ decoder_after self.old piece.now result }
        ensures taken { self.new.offset + length self.new.held
            ≡ self.old.offset + length self.old.held + bytes_taken piece.now result }
    {
        match decode_by(head, piece) {
            One::Got { command, len } => {
                self.offset += u64::from(len);
                Fed::Got {
                    command,
                    used: usize::from(len),
                }
            }
            front => self.take(front, piece),
        }
    }

    /// Takes the command at the front of a piece, between commands, if its whole spelling is there. Otherwise the decoder stays as
    /// it is. The caller passes the first byte, as for [`Decoder::feed_from`].
    #[inline(always)]
    pub fn take_front(&mut self, head: u8, piece: &[u8]) -> One
        requires between { IsBetween self.old }
        requires head { (rest : List ℕ) × (piece.now ≡ head ∷ rest) }
        requires few { self.old.offset + length self.old.held + length piece.now < 2 ^ 63 }
        ensures says { BeginsWith piece.now result }
        ensures takes { TakesWhole self.old piece.now result self.new }
    {
        let front = decode_by(head, piece);
        if let One::Got { command: _, len } = front {
            self.offset += u64::from(len);
        }
        front
    }

    /// Takes the command at the front of the held bytes and the piece.
    #[inline(always)]
    fn take(&mut self, front: One, piece: &[u8]) -> Fed
        requires works { IsFalse self.old.failed }
        requires says { BeginsWith (self.old.held ++ piece.now) front }
        requires few { self.old.offset + length self.old.held + length piece.now < 2 ^ 63 }
        ensures answer { AnswersPiece self.old piece.now result }
        ensures after { self.new ≡ decoder_after self.old piece.now result }
        ensures held { length self.new.held ≤ 3 }
        ensures taken { self.new.offset + length self.new.held
            ≡ self.old.offset + length self.old.held + bytes_taken piece.now result }
    {
        match front {
            One::Got { command, len } => {
                let used = usize::from(len) - self.held.len();
                self.held.clear();
                self.offset += u64::from(len);
                Fed::Got { command, used }
            }
            One::More => {
                self.held.try_extend_from_slice(piece).unwrap();
                Fed::All
            }
            One::Bad => {
                self.failed = true;
                Fed::Bad {
                    offset: self.offset,
                }
            }
        }
    }

    /// Returns the beginning of the held bytes and the piece.
    #[inline(always)]
    fn front(&self, piece: &[u8]) -> One
        ensures { BeginsWith (self.now.held ++ piece.now) result }
    {
        let mut joined = ArrayVec::new();
        let bytes = if self.held.is_empty() {
            piece
        } else {
            join(&mut joined, self.held.as_slice(), piece);
            joined.as_slice()
        };
        decode_one(bytes)
    }

    /// Returns the offset of the next command, or of the refused one: the number of bytes of the commands so far.
    #[inline(always)]
    pub fn offset(&self) -> u64
        ensures { result ≡ self.now.offset }
    {
        self.offset
    }

    /// Returns an error if the trace may not end here.
    pub fn end(&self) -> Result<(), TraceRefusal>
        ensures { EndsTrace self.now result }
    {
        if self.failed {
            Err(TraceRefusal::Bad {
                offset: self.offset,
            })
        } else if self.held.is_empty() {
            Ok(())
        } else {
            Err(TraceRefusal::Cut {
                offset: self.offset,
            })
        }
    }
}

/// Joins the first four bytes, or all if there are fewer, of two slices: no spelling is longer.
#[cold]
#[inline(never)]
fn join(joined: &mut ArrayVec<u8, 4>, held: &[u8], piece: &[u8])
    requires empty { joined.old.items ≡ [] }
    requires short { length held.now < 4 }
    ensures { joined.new.items ≡ held.now ++ front_of (min (length piece.now) (4 - length held.now)) piece.now }
{
    let taken = piece.len().min(4 - held.len());
    joined.try_extend_from_slice(held).unwrap();
    joined.try_extend_from_slice(&piece[..taken]).unwrap();
}
