//! Worked runs of the whole program, over files and output in memory. They contain only tests: the top call's answers are
//! proved, and these rows check that they are the contest's and those promised to users.
#![tactic(auto)]

#[cfg(test)]
mod checks;
#[cfg(test)]
mod costs;
#[cfg(test)]
mod drip;
#[cfg(test)]
mod faults;
#[cfg(test)]
mod hostile;
#[cfg(test)]
mod large;
#[cfg(test)]
mod plans;
#[cfg(test)]
mod runs;
#[cfg(test)]
mod sessions;
#[cfg(test)]
mod stores;
#[cfg(test)]
mod table;
