//! The commands of the translators, and the top call that does the job which words name.
#![tactic(auto)]

mod answer;
mod back;
mod checking;
mod command;
mod complaint;
mod formula_texts;
mod job;
pub mod laws;
mod lp2acyc;
mod lp2normal;
mod lp2sat;
mod outcome;
mod program_text;
mod replies;
mod sayings;
mod tool;

pub use answer::{Answer, Refused};
pub use command::{AcycFormat, Command, FormulaFormat, TextFormat};
pub use job::{Job, job_of};
pub use outcome::{Kind, Outcome, Why};
pub use tool::run;
