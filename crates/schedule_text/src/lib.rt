//! The text of schedules, both ways: the line that is printed for an answered step, and the step
//! that a line spells. It knows no node. Contracts say exactly which bytes are printed; and of
//! reading, that what is read is what the line spells, and that nothing that is spelled is missed.
#![tactic(auto)]

pub mod commands;
pub mod fields;
mod items;
mod line;
mod lines;
mod prefixes;
mod printing;
pub mod words;

pub use items::list_text;
pub use line::{FinishWord, Line};
pub use lines::{JobAt, fields_of, is_skipped, quota, read_line};
pub use prefixes::Prefix;
pub use printing::{answer_line, answer_text, placed_text, refusal_text, usage_text};
