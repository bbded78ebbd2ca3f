//! The lines of an operator, on standard input and on a control connection, read; and the lines that a program says of its faults and of
//! device calls that failed.
#![tactic(auto)]

mod control_lines;
mod failed_calls;
mod fault;
mod operator;
mod reading;
mod taking;

pub use control_lines::{ControlLine, Look, read_control_line};
pub use failed_calls::{DeviceCall, FailedCall, SaidCalls};
pub use fault::{Fault, status_of};
pub use operator::{Change, Order, read_order};
pub use reading::next_line;
pub use taking::{LONGEST_LINE, LineTaken, take_line};
