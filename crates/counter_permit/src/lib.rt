//! The permit to open a counter of touches.
//!
//! [`CounterPermit`] is an argument of `Steps::new` of `vox_geom`. A crate can name the permit only if the crate's line in
//! `crates.txt` lists `counter_permit`. The crates of the machine and of the judge do not list it. So their functions
//! count in the counter that the caller passes, and cannot open another one, whose touches the caller would not see.
#![tactic(auto)]

/// Permits its holder to open a counter of touches.
#[derive(Drop)]
pub struct CounterPermit;
