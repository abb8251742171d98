// What the controller's programs do with a text that was read: make the calls of a job, or check or walk a node table, and
// print what comes of it. The programs have no errors of their own, so what goes wrong is an `anyhow::Error` here already.
#![tactic(auto)]

mod checking;
mod listing;
mod outline;
mod performing;
mod printing;
mod walking;
mod wording;

pub use checking::check_table;
pub use performing::perform_job;
pub use walking::walk_table;
