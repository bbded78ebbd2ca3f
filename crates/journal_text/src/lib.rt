//! The text of a saved journal, both ways: the entry that a line spells, and the line of an entry. It
//! knows no store. Contracts say exactly which bytes are printed; and of reading, that what is read is
//! what the line spells, and that nothing that is spelled is missed.
#![tactic(auto)]

mod calls;
mod entry;
mod fields;
mod inputs;
mod items;
mod laws;
mod lines;
mod locations;
mod printing;
mod put_calls;
mod put_inputs;
mod puts;
mod replies;
mod saved;
mod typed;
mod words;

pub use entry::{Address, Entry, LineInput, Version};
pub use laws::a_written_line_is_read_back;
pub use lines::{answer_of, read_head, read_line};
pub use printing::{write_answer, write_line};
pub use saved::{Answered, JournalItem, SavedJournal};
