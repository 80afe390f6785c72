// What every part of a stack shares: why a call is refused, and the phases of a store.
#![tactic(auto)]

ghost use Rattle.std.specs.Prelude.{◌≡◌, Some};
ghost use Rattle.refusal.specs.Refusals.{number, refusal, refusal_text};

use std::error::Error;
use std::fmt;

// Why a call is refused. The numbers are the ones that scripts print; 10 is not in use.
#[derive(Clone, Copy, PartialEq, Eq, Debug)]
pub enum Reason {
    // the disk is dark after the call
    Dark = 1,
    // recovery has to run first
    RecoveryDue = 2,
    // a block, cell, slot or counter beyond the last
    OutOfRange = 3,
    // the wrong moment: a group or slot that is open or idle when it should not be
    WrongState = 4,
    // the operations of a transaction, the undo records of a slot or the puts of a group are used up
    LimitReached = 5,
    // another running transaction holds a conflicting lock
    Conflict = 6,
    // put of a key that is there
    KeyPresent = 7,
    // del of a key that is not there
    KeyAbsent = 8,
    // put into a full index
    IndexFull = 9,
    // recovery found content outside the layout
    Damaged = 11,
    // a script line that cannot be read
    Unreadable = 12,
    // memory, a script or a store of the wrong size
    WrongSize = 13,
}

impl From<Reason> for u8 {
    ghost from_gives = { λ reason n. n ≡ number reason };

    fn from(reason: Reason) -> u8 {
        reason as u8
    }
}

// A refused call: why, the layer of the part that refuses (the disk is layer 0), and what the reason is about.
#[derive(Clone, Copy, PartialEq, Eq, Debug)]
pub struct Refusal {
    pub reason: Reason,
    pub layer: u32,
    pub place: u64,
}

impl Refusal {
    pub fn new(reason: Reason, layer: u32, place: u64) -> Refusal
        ensures { result ≡ refusal reason layer place }
    {
        Refusal {
            reason,
            layer,
            place,
        }
    }
}

impl fmt::Display for Refusal {
    ghost output = { λ refused. Some (refusal_text refused) };

    fn fmt<W: fmt::Write>(&self, f: &mut fmt::Formatter<W>) -> fmt::Result {
        write!(f, "{} {} {}", u8::from(self.reason), self.layer, self.place)
    }
}

impl Error for Refusal {}

// Where a store stands.
#[derive(Clone, Copy, PartialEq, Eq, Debug)]
pub enum Phase {
    // no group is open
    Idle,
    // a group is open
    Open,
    // the disk below has no power
    Dark,
    // recovery has to run first
    Due,
}
