//! Runs of a schedule's text over any reader and writer: it is read line by line, a world of nodes takes each line's step, and its answer is
//! printed. What a command line asks for stands here too.
#![tactic(auto)]

mod command_line;
mod journal;
mod lines;
mod run;
mod workers;

pub use command_line::{ScheduleRun, Serving, Task, read_task, status_of_error};
pub use journal::{Keep, RunJournal};
pub use run::run_text;
