//! The members of a group, and their volatile boxes.
ghost use Rattle.std.specs.Prelude.{◌≡◌, ◌+◌, ◌≤◌, ◌<◌, ◌++◌, ℕ, length, map, filter, take, [], ◌∷◌, All, IsTrue};
ghost use Rattle.arrayvec.specs.ArrayVec.{array_vec_len};
ghost use Rattle.vox_geom.specs.declared.coordinate.Coord.{Coord as Coordinate};
ghost use Rattle.vox_geom.specs.Point.{point};
ghost use Rattle.vox_geom.specs.Region.{corners};
ghost use Rattle.vox_geom.specs.Space.{IsInSpace};
ghost use Rattle.nano_spec.specs.Act.{acts, stays_in_space};
ghost use Rattle.nano_spec.specs.Group.{is_leader, leaders};
ghost use Rattle.nano_spec.specs.Volatile.{is_volatile_of};
ghost use Rattle.bot_crew.specs.Crew.{IsCrew};
ghost use Rattle.step_groups.specs.Boxes.{AreBoxesIn, in_boxes};
ghost use Rattle.step_groups.specs.Groups.{AreGroups, AreJudged};
ghost use Rattle.step_groups.specs.Judging.{act, is_alone};
ghost use Rattle.step_groups.specs.Numbers.{AreNumbers, with_number};

use crate::groups::Group;
use crate::volatile::own_boxes;
use arrayvec::ArrayVec;
use bot_crew::MOST_BOTS;
use nano_spec::{Bot, Command};
use vox_geom::Region;
use vox_planes::Planes;

/// Returns whether the command needs no other bot, so that its bot is a group of its own.
pub(crate) fn acts_alone(command: &Command) -> bool
    ensures { result ≡ is_alone command.now }
{
    match command {
        Command::FusionP(_) | Command::FusionS(_) => false,
        Command::GFill(_, _) | Command::GVoid(_, _) => false,
        Command::Halt | Command::Wait | Command::Flip => true,
        Command::SMove(_) | Command::LMove(_, _) | Command::Fission(_, _) => true,
        Command::Fill(_) | Command::Void(_) => true,
    }
}

/// Returns the group of a bot that acts alone.
fn lone_group(planes: &Planes, bot: &Bot, command: &Command) -> Group
    requires within { IsInSpace planes.now.resolution bot.now.pos }
    requires stays { IsTrue (stays_in_space planes.now.resolution (act bot.now command.now)) }
    ensures leader { result.leader ≡ bot.now.bid }
    ensures members { result.members.items ≡ bot.now.bid ∷ [] }
    ensures boxes { (c : Coordinate)
        → in_boxes result.boxes.items c ≡ is_volatile_of (point c) (act bot.now command.now) }
    ensures space { AreBoxesIn planes.now.resolution result.boxes.items }
    ensures few { array_vec_len result.boxes ≤ 2 }
{
    let boxes = own_boxes(planes, bot, command);
    let mut members = ArrayVec::new();
    members.push(bot.bid);
    Group {
        leader: bot.bid,
        members,
        boxes,
    }
}

/// Adds the bots with the group index, each with the box of its position.
fn join(group: &mut Group, bots: &[Bot], numbers: &[u8], number: u8)
    requires lengths { length numbers.now ≡ length bots.now }
    requires members { array_vec_len group.old.members + length (with_number number bots.now numbers.now) ≤ 8 }
    requires boxes { array_vec_len group.old.boxes + length (with_number number bots.now numbers.now) ≤ 9 }
    ensures leader { group.new.leader ≡ group.old.leader }
    ensures members { group.new.members.items
        ≡ group.old.members.items ++ map (λ b. b.bid) (with_number number bots.now numbers.now) }
    ensures boxes { group.new.boxes.items
        ≡ group.old.boxes.items ++ map (λ b. corners b.pos b.pos) (with_number number bots.now numbers.now) }
{
    for i in 0..bots.len() {
        if numbers[i] != number {
            continue;
        }
        group.members.push(bots[i].bid);
        group.boxes.push(Region::of(bots[i].pos, bots[i].pos));
    }
}

/// Adds the group of the bot at an index, if the bot leads one.
fn push_group(
    groups: &mut ArrayVec<Group, MOST_BOTS>,
    planes: &Planes,
    bots: &[Bot],
    commands: &[Command],
    numbers: &[u8],
    i: usize,
)
    requires lengths { length commands.now ≡ length bots.now }
    requires i { i < length bots.now }
    requires room { array_vec_len groups.old < 40 }
    requires crew { IsCrew bots.now }
    requires within { All (λ b. IsInSpace planes.now.resolution b.pos) bots.now }
    requires judged { AreJudged planes.now.resolution (acts bots.now commands.now) }
    requires numbers { AreNumbers (acts bots.now commands.now) numbers.now }
    ensures groups { AreGroups planes.now.resolution (acts bots.now commands.now)
        (filter (is_leader (acts bots.now commands.now)) (acts (take i bots.now) (take i commands.now)))
        groups.old.items
        → AreGroups planes.now.resolution (acts bots.now commands.now)
        (filter (is_leader (acts bots.now commands.now))
        (acts (take (i + 1) bots.now) (take (i + 1) commands.now))) groups.new.items }
    ensures len { array_vec_len groups.new ≤ array_vec_len groups.old + 1 }
{
    let bot = &bots[i];
    let command = &commands[i];
    if usize::from(numbers[i]) != i {
        return;
    }
    let mut group = lone_group(planes, bot, command);
    if acts_alone(command) {
        groups.push(group);
        return;
    }
    join(&mut group, &bots[i + 1..], &numbers[i + 1..], numbers[i]);
    groups.push(group);
}

/// Adds the groups of the bots to an empty list, in rising order of their leaders.
pub(crate) fn list_groups(
    groups: &mut ArrayVec<Group, MOST_BOTS>,
    planes: &Planes,
    bots: &[Bot],
    commands: &[Command],
    numbers: &[u8],
)
    requires lengths { length commands.now ≡ length bots.now }
    requires none { groups.old.items ≡ [] }
    requires crew { IsCrew bots.now }
    requires within { All (λ b. IsInSpace planes.now.resolution b.pos) bots.now }
    requires judged { AreJudged planes.now.resolution (acts bots.now commands.now) }
    requires numbers { AreNumbers (acts bots.now commands.now) numbers.now }
    ensures { AreGroups planes.now.resolution (acts bots.now commands.now) (leaders (acts bots.now commands.now))
        groups.new.items }
{
    for i in 0..bots.len() {
        push_group(groups, planes, bots, commands, numbers, i);
    }
}
