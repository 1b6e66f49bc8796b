//! Proposals for plans of up to forty bots: the model is cut into boxes, and teams of one, two, four or eight bots fill one after the
//! other, from above. What is proposed here promises nothing; `plan_choice` judges it.
#![tactic(auto)]

mod agenda;
mod airspace;
mod anchors;
mod blocks;
mod chains;
mod claims;
mod clearing;
mod cut;
mod finish;
mod heap;
mod jobs;
mod manner;
mod patch;
mod paths;
mod plans;
mod poles;
mod positions;
mod record;
mod routes;
mod schedule;
mod search;
mod site;
mod tasks;
mod teams;
mod tiles;
mod weights;

pub use manner::{BoxManner, CutStyle, Prices};
pub use plans::boxes;
