// What all levels do with the slot table that their store holds.
ghost use Rattle.std.specs.Prelude.{◌≡◌, ◌≤◌, IfOk, Some, Err};
ghost use Rattle.level.specs.Turns.{barred_below, HasTable, located, allows, changed, changes, LocatedWithin, FoundRunning, Turned};

use crate::content::PlaceContent;
use crate::running::RunningSlot;
use crate::slots::{Ending, SlotState, set_slot, slot_at};
use place::{PlaceWrite, read_place, write_group};
use refusal::{Reason, Refusal};
use store::{Needs, Store, check_phase};

// How many slots a level keeps and how many undo records each has room for, and the level's number in its stack.
#[derive(Clone, Copy, PartialEq, Eq, Debug)]
pub struct Plan {
    pub layer: u32,
    pub slots: u8,
    pub records: u8,
}

// The slot table, and the slot that a call is about.
#[derive(Clone, Copy, PartialEq, Eq, Debug)]
pub struct Located {
    pub table: [u8; 64],
    pub number: u8,
    pub slot: SlotState,
}

// No Option of an ending: None would not say that the slot is opened.
#[derive(Clone, Copy, PartialEq, Eq, Debug)]
pub enum Change {
    Open,
    Close(Ending),
}

fn allowed(change: Change, slot: SlotState) -> bool
    ensures { result ≡ allows change slot }
{
    match (change, slot) {
        (Change::Open, SlotState::Committed | SlotState::Undone) => true,
        (Change::Close(_), SlotState::Running(_)) => true,
        _ => false,
    }
}

impl From<Change> for SlotState {
    ghost from_gives = { λ change slot. slot ≡ changed change };

    fn from(change: Change) -> SlotState {
        match change {
            Change::Open => SlotState::Running(0),
            Change::Close(Ending::Commit) => SlotState::Committed,
            Change::Close(Ending::Undo) => SlotState::Undone,
        }
    }
}

impl Plan {
    // Finds a call's slot: the first checks of every call of a level.
    pub fn find_slot<S: Store>(self, store: &S, t: u32) -> Result<Located, Refusal>
        ensures barred { (e : Refusal) → barred_below self.layer (S.means store.now) ≡ Some e → result ≡ Err e }
        ensures found { HasTable self.slots self.records (S.means store.now) → result ≡ located self.layer self.slots self.records t (S.means store.now) }
        ensures within { IfOk result (LocatedWithin self.slots self.records) }
    {
        check_phase(store.phase(), Needs::Idle, self.layer)?;
        if t >= u32::from(self.slots) {
            return Err(Refusal::new(Reason::OutOfRange, self.layer, u64::from(t)));
        }
        let mut table = [0; 64];
        read_place(store, 0, &mut table)?;
        let number = t as u8;
        let slot = slot_at(&table, number, self.records).ok_or(Refusal::new(
            Reason::Damaged,
            self.layer,
            0,
        ))?;
        Ok(Located {
            table,
            number,
            slot,
        })
    }

    // Finds a call's slot where it runs.
    pub fn find_running<S: Store>(self, store: &S, t: u32) -> Result<RunningSlot, Refusal>
        ensures barred { (e : Refusal) → barred_below self.layer (S.means store.now) ≡ Some e → result ≡ Err e }
        ensures found { HasTable self.slots self.records (S.means store.now) → FoundRunning self.layer self.slots self.records t (S.means store.now) result }
        ensures of_plan { IfOk result (λ found. found.plan ≡ self) }
    {
        let found = self.find_slot(store, t)?;
        let SlotState::Running(records) = found.slot else {
            return Err(Refusal::new(Reason::WrongState, self.layer, u64::from(t)));
        };
        Ok(RunningSlot {
            plan: self,
            found,
            records,
        })
    }

    // Opens an idle slot, or ends a running one.
    pub fn change_slot<S: Store>(self, store: &mut S, t: u32, change: Change) -> Result<(), Refusal>
        ensures barred { (e : Refusal) → barred_below self.layer (S.means store.old) ≡ Some e → (result ≡ Err e) × (S.means store.new ≡ S.means store.old) }
        ensures turned { HasTable self.slots self.records (S.means store.old) → 1 ≤ (S.means store.old).shape.limit → Turned (changes self.layer self.slots self.records t change (S.means store.old)) (S.means store.old) result (S.means store.new) }
    {
        let found = self.find_slot(store, t)?;
        if !allowed(change, found.slot) {
            return Err(Refusal::new(Reason::WrongState, self.layer, u64::from(t)));
        }
        let mut table = found.table;
        set_slot(&mut table, found.number, SlotState::from(change));
        write_group(
            store,
            &[PlaceWrite {
                place: 0,
                content: PlaceContent::Bytes(table),
            }],
        )
    }
}
