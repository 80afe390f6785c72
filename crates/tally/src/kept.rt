// The tally level's places in a store.
// Counters, slots and records are plain numbers here: a caller may pass any, and a type that takes fewer would ask more of it.
// So that they are the level's is a premise of what is promised.
ghost use Rattle.std.specs.Prelude.{◌≡◌, ◌%◌, ◌<◌, ◌≤◌, min, [], length, Ok, slice_index_or, slice_set};
ghost use Rattle.disk.specs.Runs.{stored};
ghost use Rattle.store.specs.Meaning.{idle};
ghost use Rattle.place.specs.Writes.{shown, Ended};
ghost use Rattle.level.specs.declared.content.PlaceContent.TheVariants.{Bytes};
ghost use Rattle.level.specs.declared.slots.SlotState.TheVariants.{Running};
ghost use Rattle.level.specs.SlotTable.{slot_byte};
ghost use Rattle.tally.specs.TallyPlaces.{counter_place, value_at, added, add_writes, undo_writes, Roomy};

use crate::{PER_PLACE, RECORDS, TallyOp, inverse, read_counter, sum, write_counter};
use level::content::PlaceContent;
use level::records::record_place;
use level::slots::{SlotState, set_slot};
use level::turns::Located;
use number::Code;
use place::{PlaceWrite, read_place, write_group};
use refusal::Refusal;
use store::Store;

// The place of a counter.
fn place_of(counter: u32) -> u32
    ensures { result ≡ counter_place counter }
{
    129 + counter / PER_PLACE as u32
}

// Which counter of its place it is.
fn index_of(counter: u32) -> usize
    ensures { result ≡ counter % 16 }
{
    counter as usize % PER_PLACE
}

// The place that a counter stands in.
pub fn load_place<S: Store>(store: &S, counter: u32) -> Result<[u8; 64], Refusal>
    ensures { (S.means store.now).stage ≡ idle → 131 ≤ length (shown (S.means store.now)) → counter < 32 → result ≡ Ok (slice_index_or (shown (S.means store.now)) (counter_place counter) []) }
{
    let mut bytes = [0; 64];
    read_place(store, place_of(counter), &mut bytes)?;
    Ok(bytes)
}

pub fn read_value<S: Store>(store: &S, counter: u32) -> Result<u32, Refusal>
    ensures { Roomy (S.means store.now) → counter < 32 → result ≡ Ok (value_at (shown (S.means store.now)) counter) }
{
    let bytes = load_place(store, counter)?;
    Ok(read_counter(&bytes, index_of(counter)).unwrap())
}

// The place of a counter with an amount added to it.
fn add_amount<S: Store>(store: &S, counter: u32, amount: u32) -> Result<[u8; 64], Refusal>
    ensures { Roomy (S.means store.now) → counter < 32 → result ≡ Ok (added (shown (S.means store.now)) counter amount) }
{
    let value = read_value(store, counter)?;
    let mut bytes = load_place(store, counter)?;
    write_counter(&mut bytes, index_of(counter), sum(value, amount)).unwrap();
    Ok(bytes)
}

// The slot table as it was read, with that many records in the slot.
fn with_records(found: &Located, records: u8) -> PlaceContent
    ensures { result ≡ Bytes (slice_set found.now.table found.now.number (min (slot_byte (Running records)) 255)) }
{
    let mut table = found.table;
    set_slot(&mut table, found.number, SlotState::Running(records));
    PlaceContent::Bytes(table)
}

// An add on a slot that has `k` records: the table, the record of its inverse and the counter, in one group.
pub fn write_add<S: Store>(
    store: &mut S,
    found: &Located,
    k: u8,
    counter: u32,
    amount: u32,
) -> Result<(), Refusal>
    ensures outcome { Roomy (S.means store.old) → found.now.table ≡ slice_index_or (shown (S.means store.old)) 0 [] → found.now.number < 8 → k < 16 → counter < 32 → Ended (stored (add_writes (shown (S.means store.old)) found.now.number k counter amount) (shown (S.means store.old))) (S.means store.old) result (S.means store.new) }
{
    let counters = add_amount(store, counter, amount)?;
    let undo = TallyOp::Add {
        counter,
        amount: inverse(amount),
    };
    write_group(
        store,
        &[
            PlaceWrite {
                place: 0,
                content: with_records(found, k.saturating_add(1)),
            },
            PlaceWrite {
                place: record_place(RECORDS, found.number, k),
                content: PlaceContent::Record(Code::from(undo)),
            },
            PlaceWrite {
                place: place_of(counter),
                content: PlaceContent::Bytes(counters),
            },
        ],
    )
}

// Takes record `k` of a slot back, which was an add: the table and the counter, in one group.
// Not one function with `write_add`: an add writes a place more, and an array with a place that may be left out is no plainer.
pub fn write_undo<S: Store>(
    store: &mut S,
    found: &Located,
    k: u8,
    counter: u32,
    amount: u32,
) -> Result<(), Refusal>
    ensures outcome { Roomy (S.means store.old) → found.now.table ≡ slice_index_or (shown (S.means store.old)) 0 [] → found.now.number < 8 → k < 16 → counter < 32 → Ended (stored (undo_writes (shown (S.means store.old)) found.now.number k counter amount) (shown (S.means store.old))) (S.means store.old) result (S.means store.new) }
{
    let counters = add_amount(store, counter, amount)?;
    write_group(
        store,
        &[
            PlaceWrite {
                place: 0,
                content: with_records(found, k),
            },
            PlaceWrite {
                place: place_of(counter),
                content: PlaceContent::Bytes(counters),
            },
        ],
    )
}
