// Stack code: instructions and the code scheme.
#![tactic(auto)]

pub mod cases;
pub mod instruction;
