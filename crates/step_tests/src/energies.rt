//! Worked costs of `energy_sum`. That they follow the contracts is proved; these rows show that they are the contest's.
use energy_sum::{command_cost, upkeep};
use nano_spec::{Command, Harmonics};
use std::test::Fail;
use vox_geom::{Diff, Far, Long, Near, Short};

/// Returns the command of each kind, along x.
fn commands() -> Option<[(Command, u32, u32, i64); 12]> {
    let one = Diff {
        dx: 1,
        dy: 0,
        dz: 0,
    };
    let near = Near::of(one)?;
    let far = Far::of(Diff {
        dx: 2,
        dy: 2,
        dz: 2,
    })?;
    let long = Long::of(Diff {
        dx: 12,
        dy: 0,
        dz: 0,
    })?;
    let short = Short::of(one)?;
    Some([
        (Command::Halt, 0, 0, 0),
        (Command::Wait, 0, 0, 0),
        (Command::Flip, 0, 0, 0),
        (Command::SMove(long), 0, 0, 24),
        (Command::LMove(short, short), 0, 0, 8),
        (Command::FusionP(near), 0, 0, -24),
        (Command::FusionS(near), 0, 0, 0),
        (Command::Fission(near, 38), 0, 0, 24),
        (Command::Fill(near), 1, 0, 12),
        (Command::Void(near), 0, 1, -12),
        (Command::GFill(near, far), 3, 0, 36),
        (Command::GVoid(near, far), 0, 27, -324),
    ])
}

#[test]
fn commands_cost_as_in_the_table(rt: HostRuntime) -> Result<(), Fail> {
    let rows = commands();
    assert!(&rt; rows.is_some());
    for (command, was_void, was_full, cost) in rows.into_iter().flatten() {
        assert_eq!(&rt; command_cost(command, was_void, was_full), cost);
    }
    Ok(())
}

#[test]
fn the_upkeep_is_by_space_and_bots(rt: HostRuntime) -> Result<(), Fail> {
    let rows = [
        (3, Harmonics::Low, 1, 101),
        (3, Harmonics::Low, 2, 121),
        (4, Harmonics::High, 1, 1940),
        (250, Harmonics::Low, 1, 46_875_020),
        (400, Harmonics::Low, 1, 192_000_020),
    ];
    for (resolution, harmonics, bots, cost) in rows {
        assert_eq!(&rt; upkeep(resolution, harmonics, bots), cost);
    }
    Ok(())
}
