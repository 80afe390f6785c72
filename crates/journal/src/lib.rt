// The journal: a store of pages over any disk.
#![tactic(auto)]

pub mod calls;
mod group;
mod record;
mod restore;
pub mod state;
mod writes;

pub use state::Journal;
