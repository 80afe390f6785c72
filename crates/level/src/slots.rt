// The slot table, place 0 of a level: a byte for each transaction slot, and zeros after them.
ghost use Rattle.std.specs.Prelude.{◌≡◌, ℕ, ◌<◌, ◌≤◌, min, true, ◌&&◌, replicate, IfSome, if◌then◌else◌, Some, None, nat_lt, slice_index, slice_index_or, slice_set};
ghost use Rattle.level.specs.declared.slots.SlotState.TheVariants.{Committed as committed};
ghost use Rattle.level.specs.SlotTable.{slot_of, slot_byte, ByteOf, Within, all_slots, table_ok, table_slots, Kept};

use number::only_zeros;

// What became of a slot's transaction: it committed, as in a new slot too, it is undone, or it runs and has so many undo records.
#[derive(Clone, Copy, PartialEq, Eq, Debug)]
pub enum SlotState {
    Committed,
    Undone,
    Running(u8),
}

// How a slot is ended.
#[derive(Clone, Copy, PartialEq, Eq, Debug)]
pub enum Ending {
    Commit,
    Undo,
}

// The byte of a slot. A slot of a level has at most 64 records, so the sum does not reach the bound.
impl From<SlotState> for u8 {
    ghost from_gives = { ByteOf };

    fn from(slot: SlotState) -> u8 {
        match slot {
            SlotState::Committed => 0,
            SlotState::Undone => 255,
            SlotState::Running(k) => k.saturating_add(1),
        }
    }
}

// The slot that a byte stands for, where a slot has at most that many records. No TryFrom: the byte alone does not say.
pub fn read_slot(byte: u8, records: u8) -> Option<SlotState>
    ensures value { result ≡ slot_of records byte }
    ensures same { IfSome result (λ s. (slot_byte s ≡ byte) × Within records s) }
    ensures back { (s : SlotState) → records ≤ 64 → Within records s → byte ≡ slot_byte s → result ≡ Some s }
{
    match byte {
        0 => Some(SlotState::Committed),
        255 => Some(SlotState::Undone),
        k if usize::from(k) <= usize::from(records) + 1 => Some(SlotState::Running(k - 1)),
        _ => None,
    }
}

// Whether each byte is that of a slot.
fn are_slots(bytes: &[u8], records: u8) -> bool
    ensures { result ≡ all_slots records bytes.now }
{
    bytes.iter().all(|byte| read_slot(*byte, records).is_some())
}

// Whether the bytes are a table of so many slots of at most so many records.
pub fn check_table(bytes: &[u8; 64], slots: u8, records: u8) -> bool
    ensures { result ≡ table_ok slots records bytes.now }
{
    let parts = bytes.split_at_checked(usize::from(slots));
    parts.is_some_and(|(front, rest)| are_slots(front, records) && only_zeros(rest))
}

// The slot of byte `t`.
pub fn slot_at(bytes: &[u8; 64], t: u8, records: u8) -> Option<SlotState>
    ensures value { result ≡ (if nat_lt t 64 then slot_of records (slice_index bytes.now t) else None) }
    ensures found { (n : ℕ) → t < n → table_ok n records bytes.now ≡ true → result ≡ Some (slice_index_or (table_slots n records bytes.now) t committed) }
    ensures within { IfSome result (Within records) }
{
    let byte = bytes.get(usize::from(t))?;
    read_slot(*byte, records)
}

// Changes slot `t`; nothing is changed where the table has no such byte.
pub fn set_slot(bytes: &mut [u8; 64], t: u8, slot: SlotState)
    ensures value { bytes.new ≡ slice_set bytes.old t (min (slot_byte slot) 255) }
    ensures kept { Kept t slot bytes.old bytes.new }
{
    // `get_mut` was tried: a proof knows no byte of an array after a write through it
    let at = usize::from(t);
    if at < bytes.len() {
        bytes[at] = u8::from(slot);
    }
}

// The table of a new level: each slot is committed.
pub fn new_table() -> [u8; 64]
    ensures value { result ≡ replicate 64 0 }
    ensures fresh { (n m : ℕ) → n ≤ 64 → (table_ok n m result ≡ true) × (table_slots n m result ≡ replicate n committed) }
{
    [0; 64]
}
