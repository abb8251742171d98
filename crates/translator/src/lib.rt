// The translator: a table of accepted shape and names becomes stack code, in memory reserved beforehand.
#![tactic(auto)]

mod emitter;
mod expressions;
mod functions;
pub mod laws;
mod statements;
pub mod translation;

pub use translation::Translation;

#[cfg(test)]
mod tests;
