//! Slots of `brick_arena`: that `take` succeeds, which no clause guarantees, and the worked example of seventy of them.
ghost use Rattle.std.specs.Prelude.{ℕ, ◌<◌, ◌≢◌, slice_index, IfOk, OnOk};
ghost use Rattle.vox_geom.specs.Counting.{IsBlankOf};
ghost use Rattle.brick_arena.specs.Slots.{IsLive};

use brick_arena::{Bricks, MOST_SLOTS};
use counter_permit::CounterPermit;
use std::alloc::Global;
use std::marker::Brand;
use std::process::Abort;
use std::sync::ledger::{Blank, Ledger};
use std::test::Fail;
use vox_geom::{Memory, Steps};

/// Takes a slot, and retries once if allocation fails.
fn taken(rt: &impl Abort, bricks: &mut Bricks) -> Result<u32, Memory>
    ensures near { IfOk result (λ slot. slot < MOST_SLOTS) }
    ensures live { IfOk result (IsLive bricks.new) }
    ensures others { OnOk result ((slot : ℕ) → IsLive bricks.old slot → IsLive bricks.new slot) }
{
    let live = bricks.live();
    assert!(rt; live < MOST_SLOTS);
    if let Ok(slot) = bricks.take() {
        return Ok(slot);
    }
    assert_eq!(rt; bricks.live(), live);
    let slot = bricks.take()?;
    Ok(slot)
}

/// Takes seventy slots, so that there are two chunks, and marks the last word of each.
fn seventy<L: Ledger>(
    rt: &impl Abort,
    bricks: &mut Bricks,
    steps: &mut Steps<L>,
) -> Result<[u32; 70], Memory>
    ensures { IfOk result (λ slots. (k : ℕ) → k < 70 → IsLive bricks.new (slice_index slots k)) }
{
    let mut slots = [0u32; 70];
    for k in 0..70usize {
        let slot = taken(rt, bricks)?;
        bricks.set_word(slot, 511, slot + 1, steps);
        slots[k] = slot;
    }
    Ok(slots)
}

/// Asserts that all words of the slot are 0.
fn assert_blank<L: Ledger>(rt: &impl Abort, bricks: &Bricks, slot: u32, steps: &mut Steps<L>)
    requires { IsLive bricks.now slot }
{
    for index in 0..512u16 {
        assert_eq!(rt; bricks.word(slot, index, steps), 0, "at {index}");
    }
}

/// Asserts that all but two of the slots have their marks.
fn assert_marked<L: Ledger>(
    rt: &impl Abort,
    bricks: &Bricks,
    slots: [u32; 70],
    but: (u32, u32),
    steps: &mut Steps<L>,
)
    requires { (k : ℕ) → k < 70 → slice_index slots k ≢ but.0 → slice_index slots k ≢ but.1
        → IsLive bricks.now (slice_index slots k) }
{
    let mut marked = 0u32;
    for k in 0..70usize {
        let slot = slots[k];
        if slot != but.0 && slot != but.1 {
            assert_eq!(rt;
                u64::from(bricks.word(slot, 511, steps)),
                u64::from(slot) + 1
            );
            marked = marked.saturating_add(1);
        }
    }
    assert_eq!(rt; marked, 68);
}

/// Of seventy slots, frees the fourth and the sixty-ninth, and takes two.
fn reused<L: Ledger>(rt: &impl Abort, blank: Blank, alloc: Global) -> Result<(), Memory>
    requires blank { IsBlankOf blank L.name L.parts }
{
    let mut steps: Steps<L> = Steps::new(blank, CounterPermit);
    let mut bricks = Bricks::new(alloc);
    assert_eq!(rt; bricks.live(), 0);
    let slots = seventy(rt, &mut bricks, &mut steps)?;
    assert_eq!(rt; bricks.live(), 70);

    let (fourth, late) = (slots[3], slots[68]);
    assert!(rt; fourth != late);
    bricks.give(fourth);
    bricks.give(late);
    assert_eq!(rt; bricks.live(), 68);

    let first = taken(rt, &mut bricks)?;
    let second = taken(rt, &mut bricks)?;
    assert!(rt; first != second);
    assert_eq!(rt; bricks.live(), 70);
    assert_blank(rt, &bricks, first, &mut steps);
    assert_blank(rt, &bricks, second, &mut steps);
    assert_marked(rt, &bricks, slots, (fourth, late), &mut steps);
    Ok(())
}

#[test]
fn seventy_slots(rt: HostRuntime) -> Result<(), Fail> {
    reused::<Brand>(&rt, Blank::new(1), rt.alloc())?;
    Ok(())
}
