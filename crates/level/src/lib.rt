// The parts that every level is made of: locks and which of them conflict, the slot table, and undo records.
#![tactic(auto)]

pub mod conflict;
pub mod content;
pub mod level;
pub mod records;
pub mod running;
pub mod slots;
pub mod turns;
