//! Judges the commands of a step and forms its groups.
#![tactic(auto)]

mod apart;
mod boxes;
mod deed;
mod groups;
mod leading;
mod members;
mod numbers;
mod one_pass;
mod pairs;
mod partners;
mod rules;
mod shapes;
mod single;
mod step;
mod volatile;

pub use apart::all_act_alone;
pub use deed::{Deed, deed_of};
pub use groups::{Group, Groups, judge_groups};
pub use leading::leaders;
pub use numbers::number_groups;
pub use single::{edit, judge_edit, judge_move, judge_single, moves_at_once};
pub use step::Step;
