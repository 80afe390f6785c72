// Operations and undos of the tally level on the places of any store.
ghost use Rattle.std.specs.Prelude.{◌≡◌, ℕ, ◌-◌, ◌<◌, ◌≤◌, true, [], MatchOption, IfOk, Some, Err, slice_index_or};
ghost use Rattle.place.specs.Writes.{shown};
ghost use Rattle.level.specs.Turns.{barred_below, table_of, Turned};
ghost use Rattle.level.specs.SlotTable.{table_ok};
ghost use Rattle.level.specs.Records.{record_place};
ghost use Rattle.tally.specs.Codes.{Recordable};
ghost use Rattle.tally.specs.TallyPlaces.{Roomy, undo_at};
ghost use Rattle.tally.specs.TallyTurns.{counter_of, performs, Acted, apply_act, loaded, takes_back, undo_turn};
ghost use Rattle.tally.specs.Entries.{tally_plan, OfTally, EntryOf};

use crate::entry::Entry;
use crate::kept::{read_value, write_add, write_undo};
use crate::{COUNTERS, RECORDS, SLOTS, TallyAnswer, TallyOp, undo_of};
use level::records::{read_record, record_place};
use level::running::RunningSlot;
use level::turns::Plan;
use place::read_place;
use refusal::{Reason, Refusal};
use store::Store;

// The level's slots and records, at its number in a stack.
fn plan(layer: u32) -> Plan
    ensures { result ≡ tally_plan layer }
{
    Plan {
        layer,
        slots: SLOTS,
        records: RECORDS,
    }
}

impl Entry {
    // Record `index` of the slot.
    fn at(found: &RunningSlot, index: u8) -> Entry
        requires plan { OfTally found.now.plan }
        requires inside { index < 16 }
        ensures { EntryOf found.now index result }
    {
        Entry {
            layer: found.plan.layer,
            found: found.found,
            index,
        }
    }

    // The record that an operation on the slot writes next; None where the slot has no room for one more.
    fn next(found: &RunningSlot) -> Option<Entry>
        requires { OfTally found.now.plan }
        ensures { MatchOption result (16 ≤ found.now.records) (EntryOf found.now found.now.records) }
    {
        if found.records >= RECORDS {
            return None;
        }
        Some(Entry::at(found, found.records))
    }

    // The newest record of the slot; None where it has none.
    fn newest(found: &RunningSlot) -> Option<Entry>
        requires { OfTally found.now.plan }
        ensures { MatchOption result (found.now.records ≡ 0) (λ e. (0 < found.now.records) × EntryOf found.now (found.now.records - 1) e) }
    {
        let index = found.records.checked_sub(1)?;
        Some(Entry::at(found, index))
    }

    // Its place.
    fn place(&self) -> u32
        ensures { result ≡ record_place 16 self.now.found.number self.now.index }
    {
        record_place(RECORDS, self.found.number, self.index)
    }
}

// An operation on a running slot that has room for one record more.
fn perform<S: Store>(store: &mut S, entry: &Entry, op: TallyOp) -> Result<TallyAnswer, Refusal>
    ensures acted { Roomy (S.means store.old) → entry.now.found.table ≡ slice_index_or (shown (S.means store.old)) 0 [] → counter_of op < 32 → Acted (performs op entry.now.found.number entry.now.index (S.means store.old)) (S.means store.old) result (S.means store.new) }
{
    match op {
        TallyOp::Add { counter, amount } => {
            write_add(store, &entry.found, entry.index, counter, amount)?;
            Ok(TallyAnswer::Added)
        }
        TallyOp::Read { counter } => Ok(TallyAnswer::Value(read_value(store, counter)?)),
    }
}

// Applies an operation on a slot.
pub fn apply_op<S: Store>(
    store: &mut S,
    layer: u32,
    t: u32,
    op: TallyOp,
) -> Result<TallyAnswer, Refusal>
    ensures barred { (e : Refusal) → barred_below layer (S.means store.old) ≡ Some e → (result ≡ Err e) × (S.means store.new ≡ S.means store.old) }
    ensures acted { Roomy (S.means store.old) → table_ok 8 16 (table_of (S.means store.old)) ≡ true → Acted (apply_act layer t op (S.means store.old)) (S.means store.old) result (S.means store.new) }
{
    let found = plan(layer).find_running(store, t)?;
    let number = op.counter();
    if number >= COUNTERS {
        return Err(Refusal::new(Reason::OutOfRange, layer, u64::from(number)));
    }
    let entry = Entry::next(&found).ok_or(Refusal::new(Reason::LimitReached, layer, u64::from(t)))?;
    perform(store, &entry, op)
}

// Reads an undo record.
fn load_undo<S: Store>(store: &S, entry: &Entry) -> Result<TallyOp, Refusal>
    ensures loaded { Roomy (S.means store.now) → result ≡ loaded entry.now.layer entry.now.found.number entry.now.index (undo_at (shown (S.means store.now)) entry.now.found.number entry.now.index) }
    ensures recordable { IfOk result Recordable }
{
    let mut bytes = [0; 64];
    read_place(store, entry.place(), &mut bytes)?;
    read_record(&bytes).and_then(undo_of).ok_or(Refusal::new(
        Reason::Damaged,
        entry.layer,
        u64::from(entry.place()),
    ))
}

// Takes the newest record of a slot back.
fn take_back<S: Store>(store: &mut S, entry: &Entry) -> Result<(), Refusal>
    ensures turned { Roomy (S.means store.old) → entry.now.found.table ≡ slice_index_or (shown (S.means store.old)) 0 [] → Turned (takes_back entry.now.layer entry.now.found.number entry.now.index (S.means store.old) (loaded entry.now.layer entry.now.found.number entry.now.index (undo_at (shown (S.means store.old)) entry.now.found.number entry.now.index))) (S.means store.old) result (S.means store.new) }
{
    let TallyOp::Add { counter, amount } = load_undo(store, entry)? else {
        unreachable!();
    };
    write_undo(store, &entry.found, entry.index, counter, amount)
}

// Applies the newest undo record of a slot and removes it.
pub fn undo_newest<S: Store>(store: &mut S, layer: u32, t: u32) -> Result<(), Refusal>
    ensures barred { (e : Refusal) → barred_below layer (S.means store.old) ≡ Some e → (result ≡ Err e) × (S.means store.new ≡ S.means store.old) }
    ensures turned { Roomy (S.means store.old) → table_ok 8 16 (table_of (S.means store.old)) ≡ true → Turned (undo_turn layer t (S.means store.old)) (S.means store.old) result (S.means store.new) }
{
    let found = plan(layer).find_running(store, t)?;
    let entry = Entry::newest(&found).ok_or(Refusal::new(Reason::WrongState, layer, u64::from(t)))?;
    take_back(store, &entry)
}
