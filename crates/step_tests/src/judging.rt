//! Verdicts of `trace_judge`.
ghost use Rattle.vox_geom.specs.Counting.{IsBlankOf};

use crate::common::{at, empty, long, near, source};
use counter_permit::CounterPermit;
use nano_spec::{Broken, Command, Rule, Verdict};
use std::alloc::Global;
use std::marker::Brand;
use std::process::Abort;
use std::sync::ledger::{Blank, Ledger};
use std::test::Fail;
use trace_judge::judge;
use vox_geom::{Coord, Memory, Steps};

/// Returns the verdict of a trace that breaks a rule.
fn refused(step: u32, bid: u8, rule: Rule, at: Coord) -> Verdict {
    Verdict::Refused(Broken {
        step,
        bid,
        rule,
        at,
    })
}

/// Asserts the verdict of a trace from the empty matrix of resolution 3.
fn assert_verdict<L: Ledger>(
    rt: &impl Abort,
    alloc: Global,
    target: &[Coord],
    commands: &[Command],
    expected: Verdict,
    steps: &mut Steps<L>,
) -> Result<(), Memory> {
    let start = empty(alloc, 3)?;
    let target = source(rt, alloc, 3, target, steps)?;
    assert!(rt; commands.len() < 1000);
    assert_eq!(rt; judge(alloc, start, &target, commands, steps)?, expected);
    Ok(())
}

/// Judges a trace in which a bot fills the voxel (1,0,1) and comes home: as it is, too short, too long, and for another target.
fn traces<L: Ledger>(rt: &impl Abort, blank: Blank, alloc: Global) -> Result<(), Memory>
    requires blank { IsBlankOf blank L.name L.parts }
{
    let mut steps: Steps<L> = Steps::new(blank, CounterPermit);
    let trace = [
        Command::SMove(long(rt, 1, 0, 0)),
        Command::Fill(near(rt, 0, 0, 1)),
        Command::SMove(long(rt, -1, 0, 0)),
        Command::Halt,
        Command::Halt,
    ];
    let origin = at(0, 0, 0);
    let filled = [at(1, 0, 1)];
    let accepted = Verdict::Accepted {
        energy: 420,
        steps: 4,
    };
    assert_verdict(rt, alloc, &filled, &trace[..4], accepted, &mut steps)?;
    let ends = refused(4, 1, Rule::TraceEnds, origin);
    assert_verdict(rt, alloc, &filled, &trace[..3], ends, &mut steps)?;
    let after = refused(4, 0, Rule::AfterHalt, origin);
    assert_verdict(rt, alloc, &filled, &trace, after, &mut steps)?;
    let wrong = refused(4, 0, Rule::WrongResult, filled[0]);
    assert_verdict(rt, alloc, &[], &trace[..4], wrong, &mut steps)
}

#[test]
fn a_trace_has_its_verdict(rt: HostRuntime) -> Result<(), Fail> {
    traces::<Brand>(&rt, Blank::new(1), rt.alloc())?;
    Ok(())
}
