//! A run whose trace arrives in pieces.
ghost use Rattle.std.specs.Prelude.{◌≡◌, ◌+◌, ◌*◌, ◌<◌, ◌≤◌, ℕ, List, [], ◌∷◌, false, length, None, IfOk, OnOk};
ghost use Rattle.nano_spec.specs.declared.system.Profile.{Profile as ProfileOf};
ghost use Rattle.nano_spec.specs.Grounded.{FirstUngrounded};
ghost use Rattle.nano_spec.specs.Matrix.{Matrix};
ghost use Rattle.nano_spec.specs.Model.{volume};
ghost use Rattle.trace_codec.specs.Decoder.{AnswersPiece, DecoderState, IsBetween, decoder_after};
ghost use Rattle.vox_depot.specs.Files.{Files};
ghost use Rattle.nanobot_rows.specs.Reading.{AnswerOfBytes, HasRun, reply_of};
ghost use Rattle.nanobot_rows.specs.Taking.{CanFeed, Gets, Takes, TakesFront};
ghost use Rattle.nanobot_rows.specs.Touching.{HasPaid};

mod alone;

use crate::report::Report;
use nano_spec::Profile;
use run_progress::the_progress_is_the_verdict;
use std::alloc::Global;
use std::marker::Model;
use std::sync::ledger::Ledger;
use trace_codec::{Decoder, Fed, TraceRefusal, pieces_decode};
use trace_judge::{Runner, the_work_pays};
use vox_geom::{Memory, Steps};
use vox_planes::Planes;

/// A run whose trace arrives in pieces: passes the commands to the machine one by one, and drops each once its step is made.
/// Decoding continues after a step is refused.
#[derive(Drop)]
pub struct TraceRun {
    decoder: Decoder,
    runner: Runner,
}

impl Model for TraceRun {
    ghost use Rattle.std.specs.Prelude.{◌≤◌};
    ghost use Rattle.nanobot_rows.specs.Reading.{RunState};

    ghost Value = { RunState };

    ghost view = { λ t. record { decoder = t.decoder; run = t.runner } };

    ghost invariant = { λ t. t.runner.progress.steps ≤ t.decoder.offset };
}

impl TraceRun {
    /// Returns the run before the first byte. At most 91 touches for each voxel.
    pub fn start<L: Ledger>(
        alloc: Global,
        source: Planes,
        profile: Profile,
        steps: &mut Steps<L>,
    ) -> Result<TraceRun, Memory>
        requires grounded { FirstUngrounded source None }
        requires seeds { profile.seeds ≤ 39 }
        ensures run { IfOk result (HasRun source profile []) }
        ensures offset { IfOk result (λ t. t.decoder.offset + length t.decoder.held ≡ 0) }
        ensures resolution { IfOk result (λ t. t.run.progress.state.matrix.resolution ≡ source.resolution) }
        ensures stands { IfOk result (λ t. t.run.spent ≡ false) }
        ensures paid { IfOk result (λ t. HasPaid source profile [] t steps.new steps.new) }
        ensures touches { IfOk result (λ _. steps.new ≤ steps.old + 91 * volume source.resolution) }
    {
        pieces_decode();
        the_work_pays();
        let runner = Runner::start(alloc, source, profile, steps)?;
        Ok(TraceRun {
            decoder: Decoder::new(),
            runner,
        })
    }

    /// Consumes the next bytes of the trace. The work of their commands pays for the touches.
    pub fn feed<L: Ledger>(&mut self, piece: &[u8], steps: &mut Steps<L>) -> Result<(), Memory>
        requires { CanFeed self.old piece.now }
        ensures { OnOk result (Takes self.old piece.now self.new steps.old steps.new) }
    {
        let mut at = 0;
        while at < piece.len() {
            at += self.advance(&piece[at..], steps)?;
        }
        Ok(())
    }

    /// Consumes at least one byte of the piece, and returns how many. A single bot has a fast path.
    #[inline(always)]
    fn advance<L: Ledger>(&mut self, piece: &[u8], steps: &mut Steps<L>) -> Result<usize, Memory>
        requires some { 1 ≤ length piece.now }
        requires feeds { CanFeed self.old piece.now }
        ensures { IfOk result (λ n. TakesFront self.old piece.now n self.new steps.old steps.new) }
    {
        let used = self.run_where_alone(piece, steps)?;
        if used > 0 {
            return Ok(used);
        }
        self.next(piece, steps)
    }

    /// Consumes the bytes up to the end of a command, or all of them if none ends there. Returns how many.
    ///
    /// Frequent commands have fast paths, in which the first byte is a constant.
    #[inline(always)]
    fn next<L: Ledger>(&mut self, piece: &[u8], steps: &mut Steps<L>) -> Result<usize, Memory>
        requires some { 1 ≤ length piece.now }
        requires feeds { CanFeed self.old piece.now }
        ensures { IfOk result (λ n. TakesFront self.old piece.now n self.new steps.old steps.new) }
    {
        if !self.decoder.is_between() {
            return self.take(piece, steps);
        }
        let head = piece[0];
        match head {
            0b0001_0100 => self.take_from(0b0001_0100, piece, steps),
            0b0010_0100 => self.take_from(0b0010_0100, piece, steps),
            0b0011_0100 => self.take_from(0b0011_0100, piece, steps),
            _ => match head % 8 {
                0b011 => self.take_from(head / 8 * 8 + 0b011, piece, steps),
                0b010 => self.take_from(head / 8 * 8 + 0b010, piece, steps),
                _ => self.take(piece, steps),
            },
        }
    }

    /// Does the same if a command begins with this byte.
    #[inline(always)]
    fn take_from<L: Ledger>(
        &mut self,
        head: u8,
        piece: &[u8],
        steps: &mut Steps<L>,
    ) -> Result<usize, Memory>
        requires between { IsBetween self.old.decoder }
        requires head { (rest : List ℕ) × (piece.now ≡ head ∷ rest) }
        requires feeds { CanFeed self.old piece.now }
        ensures { IfOk result (λ n. TakesFront self.old piece.now n self.new steps.old steps.new) }
    {
        pieces_decode();
        the_work_pays();
        let fed = self.decoder.feed_from(head, piece);
        push(&mut self.runner, fed, piece.len(), steps)
    }

    /// Does the same from any state of the decoder.
    #[inline(never)]
    fn take<L: Ledger>(&mut self, piece: &[u8], steps: &mut Steps<L>) -> Result<usize, Memory>
        requires some { 1 ≤ length piece.now }
        requires feeds { CanFeed self.old piece.now }
        ensures { IfOk result (λ n. TakesFront self.old piece.now n self.new steps.old steps.new) }
    {
        pieces_decode();
        the_work_pays();
        let fed = self.decoder.feed(piece);
        push(&mut self.runner, fed, piece.len(), steps)
    }

    /// Returns the report on the complete trace. At most two touches for each voxel.
    pub fn finish<L: Ledger>(self, target: &Planes, steps: &mut Steps<L>) -> Report
        requires stands { self.run.spent ≡ false }
        requires resolution { self.run.progress.state.matrix.resolution ≡ target.now.resolution }
        ensures report { (source : Matrix) (profile : ProfileOf) (bytes : List ℕ) → HasRun source profile bytes self
            → (files : Files) → AnswerOfBytes profile source target.now bytes files (reply_of files result) }
        ensures touches { steps.new ≤ steps.old + 2 * volume target.now.resolution }
    {
        pieces_decode();
        the_progress_is_the_verdict();
        match self.decoder.end() {
            Err(TraceRefusal::Bad { offset }) => Report::TraceBad { offset },
            Err(TraceRefusal::Cut { offset }) => Report::TraceCut { offset },
            Ok(()) => Report::of_verdict(self.runner.finish(target, steps)),
        }
    }
}

/// Passes the command cut from the front of `count` bytes to the runner, if there is one, and returns how many it consumed.
#[inline(always)]
fn push<L: Ledger>(
    runner: &mut Runner,
    fed: Fed,
    count: usize,
    steps: &mut Steps<L>,
) -> Result<usize, Memory>
    requires stands { runner.old.spent ≡ false }
    requires steps { runner.old.progress.steps < 1073741824 }
    ensures gets { IfOk result (λ n. Gets runner.old fed count n runner.new steps.old steps.new) }
    ensures counted { (decoder : DecoderState) (piece : List ℕ) → AnswersPiece decoder piece fed
        → runner.old.progress.steps ≤ decoder.offset
        → runner.new.progress.steps ≤ (decoder_after decoder piece fed).offset }
{
    match fed {
        Fed::Got { command, used } => {
            runner.push(command, steps)?;
            Ok(used)
        }
        Fed::All => Ok(count),
        Fed::Bad { offset: _ } => Ok(count),
    }
}
