// The steps of a trial (docs/TRIAL.md): each reads what follows its byte, tells the leg, and writes what it answered. What
// stands in a file no contract can say: they say what becomes of the leg.
#![tactic(auto)]

mod run;
mod steps;

pub use steps::{Malformed, Trial, numbered};
