// The cell: it keeps a table, makes its code and runs it over lent words and a rack.
#![tactic(auto)]

pub mod arming;
pub mod calls;
pub mod loading;
pub mod memory;
pub mod performing;
pub mod promises;
pub mod questions;
pub mod running;
#[cfg(test)]
mod tests;

pub use calls::{Answer, Call, State};
pub use memory::Cell;
