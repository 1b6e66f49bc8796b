//! Fast loop for a single bot: loop invariants are checked once, not per command.
ghost use Rattle.std.specs.Prelude.{◌≡◌, ◌+◌, ◌≤◌, ℕ, List, ◌∷◌, length, IfOk};
ghost use Rattle.nanobot_rows.specs.Alone.{WentOn, IsAtCommand, TakesUpTo};
ghost use Rattle.nanobot_rows.specs.Taking.{CanFeed};

use super::TraceRun;
use std::sync::ledger::Ledger;
use trace_codec::{One, pieces_decode};
use trace_judge::the_work_pays;
use vox_geom::{Memory, Steps};

/// The number of bytes consumed, and whether the run still has a single bot.
#[derive(Clone, Copy)]
pub(super) struct Went {
    used: u8,
    alone: bool,
}

/// Not applicable: no byte was consumed.
const DECLINED: Went = Went {
    used: 0,
    alone: false,
};

impl TraceRun {
    /// Consumes frequent commands if there is a single bot and a command begins; else none. Returns the number of bytes.
    #[inline(always)]
    pub(super) fn run_where_alone<L: Ledger>(
        &mut self,
        piece: &[u8],
        steps: &mut Steps<L>,
    ) -> Result<usize, Memory>
        requires { CanFeed self.old piece.now }
        ensures { IfOk result (λ n. TakesUpTo self.old piece.now n self.new steps.old steps.new) }
    {
        if !self.runner.is_alone() {
            return Ok(0);
        }
        if !self.decoder.is_between() {
            return Ok(0);
        }
        self.run_alone(piece, steps)
    }

    /// Consumes frequent commands while there is a single bot. Returns the number of bytes.
    #[inline(never)]
    fn run_alone<L: Ledger>(&mut self, piece: &[u8], steps: &mut Steps<L>) -> Result<usize, Memory>
        requires alone { IsAtCommand self.old }
        requires offset { self.old.decoder.offset + length self.old.decoder.held + length piece.now ≤ 1073741824 }
        ensures { IfOk result (λ n. TakesUpTo self.old piece.now n self.new steps.old steps.new) }
    {
        let mut at = 0;
        while at < piece.len() {
            let went = self.next_alone(&piece[at..], steps)?;
            at += usize::from(went.used);
            if !went.alone {
                return Ok(at);
            }
        }
        Ok(at)
    }

    /// Consumes the next command if it is a frequent one, passing on its first byte as a constant.
    #[inline(always)]
    fn next_alone<L: Ledger>(&mut self, piece: &[u8], steps: &mut Steps<L>) -> Result<Went, Memory>
        requires some { 1 ≤ length piece.now }
        requires alone { IsAtCommand self.old }
        requires offset { self.old.decoder.offset + length self.old.decoder.held + length piece.now ≤ 1073741824 }
        ensures { IfOk result (λ went. WentOn self.old piece.now went self.new steps.old steps.new) }
    {
        let head = piece[0];
        match head {
            0b0001_0100 => self.step_by(0b0001_0100, piece, steps),
            0b0010_0100 => self.step_by(0b0010_0100, piece, steps),
            0b0011_0100 => self.step_by(0b0011_0100, piece, steps),
            _ => match head % 8 {
                0b011 => self.step_by(head / 8 * 8 + 0b011, piece, steps),
                0b010 => self.step_by(head / 8 * 8 + 0b010, piece, steps),
                _ => Ok(DECLINED),
            },
        }
    }

    /// Consumes the command that begins with this byte, if it is complete.
    #[inline(always)]
    fn step_by<L: Ledger>(
        &mut self,
        head: u8,
        piece: &[u8],
        steps: &mut Steps<L>,
    ) -> Result<Went, Memory>
        requires head { (rest : List ℕ) × (piece.now ≡ head ∷ rest) }
        requires alone { IsAtCommand self.old }
        requires offset { self.old.decoder.offset + length self.old.decoder.held + length piece.now ≤ 1073741824 }
        ensures { IfOk result (λ went. WentOn self.old piece.now went self.new steps.old steps.new) }
    {
        pieces_decode();
        the_work_pays();
        match self.decoder.take_front(head, piece) {
            One::Got { command, len } => {
                let alone = self.runner.push_alone(command, steps)?;
                Ok(Went { used: len, alone })
            }
            One::More => Ok(DECLINED),
            One::Bad => Ok(DECLINED),
        }
    }
}
