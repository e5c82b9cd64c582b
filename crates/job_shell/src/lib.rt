//! The shell of all jobs: it reads texts, asks a command for its reply, writes what is made and says what is said.
//!
//! A command is a function of texts that are within the limit. What is told of its run over a desk is proved once,
//! for every command: which end comes when, and what each leaves of the desk.
#![tactic(auto)]

mod command;
mod ended;
mod output;
mod reading;
mod shell;
mod writing;

pub use command::{Command, Reply};
pub use ended::Ended;
pub use output::Output;
pub use shell::run_job;
