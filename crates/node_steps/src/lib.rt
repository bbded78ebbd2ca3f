//! The steps of a node that is locked: each function is lent a node with its journal, and makes one step with it and no more, or leaves
//! it as it is. What a step leaves to be done beside the node is handed to its housekeeping.
#![tactic(auto)]

mod auditing;
mod journal_sweeping;
mod stepping;

pub use auditing::{audit, audit_one};
pub use journal_sweeping::sweep_after;
pub use stepping::{
    Stepped, step_arrival, step_call, step_call_after, step_end, step_event, step_leave,
    step_located, step_order, step_take,
};
