// Standard input and output through buffers, and the numbers in them. What is read or written no contract can say: they
// say which bytes of a buffer are held, at which place of the file, and where new ones go. No call demands anything of
// where reading or writing stands.
#![tactic(auto)]

pub mod input;
pub mod output;

pub use input::{Input, Reader};
pub use output::{Output, Writer};
