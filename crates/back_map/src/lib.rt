//! From a solver's answer back to the program's atoms: the text of an answer, and what an assignment shows through a
//! map.
#![tactic(auto)]

mod answer;
mod answer_line;
mod hearing;
mod judge;
mod read_answer_text;
mod status;
mod true_variables;

pub use answer::{Answer, AnswerKind, AnswerRefusal, Status};
pub use judge::{BackRefusal, Judged, back};
pub use read_answer_text::read_answer;
