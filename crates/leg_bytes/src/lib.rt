// A leg in its 490 bytes, written and read (docs/TRIAL.md). What the leg's types can't hold is malformed; what they can,
// and document 01 calls damaged, is read as it stands.
#![tactic(auto)]

mod parts;
mod reading;
mod writing;

pub use reading::read;
pub use writing::bytes_of;
