// A level: a state with operations, kept in a store, each change with its inverse.
ghost use Rattle.std.specs.Prelude.{◌≡◌, ℕ, ◌≤◌};
ghost use Rattle.theory.specs.Theory.{Theory, Lawful};
ghost use Rattle.theory.specs.Machine.{Limits};
ghost use Rattle.level.specs.Calls.{Sized, Standing, Outcome, Powered, Recovers, opens, closes, applies, undoes, tells};
ghost use Rattle.level.specs.Fates.{fate_number};

use crate::slots::Ending;
use refusal::Refusal;

// What became of a slot's last transaction. The number is the one that the law of the manager speaks of.
#[derive(Clone, Copy, PartialEq, Eq, Debug)]
pub enum Fate {
    // also a new slot's
    Committed = 0,
    Undone = 1,
    Running = 2,
}

impl From<Fate> for u8 {
    ghost from_gives = { λ fate n. n ≡ fate_number fate };

    fn from(fate: Fate) -> u8 {
        fate as u8
    }
}

pub trait Level {
    type Op;

    type Answer;

    // How many transaction slots the level keeps, and how many undo records a slot has room for.
    const SLOTS: u32;

    const RECORDS: u32;

    ghost SLOTS: { ℕ };

    ghost RECORDS: { ℕ };

    // What the level does, its limits left out, and its laws: inverses undo, operations without conflict commute.
    ghost theory: { Theory Self.Op Self.Answer };

    ghost laws: { Lawful theory };

    ghost limits: { Self → Limits Self.Op theory.State };

    // What the store below says of the level.
    ghost means: { Self → Standing Self.Op theory.State };

    // the level's number in its stack
    fn layer(&self) -> u32
        ensures { result ≡ (limits self.now).layer };

    // Makes an idle slot running.
    fn open(&mut self, t: u32) -> Result<(), Refusal>
        ensures outcome { Outcome (limits self.old).layer (λ s slots. opens theory (limits self.old) s slots t) (means self.old) result (means self.new) }
        ensures fixed { limits self.new ≡ limits self.old };

    // Applies an operation on a running slot and keeps its inverse as the slot's newest undo record.
    fn apply(&mut self, t: u32, op: Self::Op) -> Result<Self::Answer, Refusal>
        ensures outcome { Outcome (limits self.old).layer (λ s slots. applies theory (limits self.old) s slots t op) (means self.old) result (means self.new) }
        ensures fixed { limits self.new ≡ limits self.old };

    // Applies the newest undo record of a slot and removes it.
    fn undo(&mut self, t: u32) -> Result<(), Refusal>
        ensures outcome { Outcome (limits self.old).layer (λ s slots. undoes theory (limits self.old) s slots t) (means self.old) result (means self.new) }
        ensures fixed { limits self.new ≡ limits self.old };

    // Ends a running slot.
    fn close(&mut self, t: u32, how: Ending) -> Result<(), Refusal>
        ensures outcome { Outcome (limits self.old).layer (λ s slots. closes theory (limits self.old) s slots t how) (means self.old) result (means self.new) }
        ensures fixed { limits self.new ≡ limits self.old };

    // What became of a slot's last transaction.
    fn fate(&self, t: u32) -> Result<Fate, Refusal>
        ensures { Outcome (limits self.now).layer (λ s slots. tells theory (limits self.now) s slots t) (means self.now) result (means self.now) };

    // Gives the disk below that charge; recovery is due. Always accepted.
    fn power(&mut self, charge: u32)
        ensures outcome { Powered (means self.old) (means self.new) }
        ensures fixed { limits self.new ≡ limits self.old };

    // Lets the store recover, if that is due, and checks the whole layout of the level.
    fn recover(&mut self) -> Result<(), Refusal>
        ensures outcome { Recovers (means self.old) result (means self.new) }
        ensures fixed { limits self.new ≡ limits self.old };

    // A level keeps few slots of few records, and as many as its constants say.
    ghost few_slots: { SLOTS ≤ 8 };

    ghost few_records: { RECORDS ≤ 64 };

    ghost sized: { (s : Self) → Sized (limits s) SLOTS RECORDS };
}
