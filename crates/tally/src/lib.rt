// The tally level: 32 counters modulo 2^32. Its laws, its operations as codes, and the bytes of its counters.
#![tactic(auto)]

ghost use Rattle.std.specs.Prelude.{◌≡◌, ◌+◌, ◌%◌, ◌^◌, ◌≤◌, Some, nat_lt};
ghost use Rattle.std.specs.Bool.{then_some};
ghost use Rattle.tally.specs.Tallies.{inverse_amount, tally_conflict, Symmetric, Marks, TallyIsSerial, TallyRecovers};
ghost use Rattle.tally.specs.Codes.{tally_code, tally_undo, CodeOf, Recordable};
ghost use Rattle.tally.specs.CounterBytes.{counter_at, written_at, CounterLaws};
ghost use Rattle.tally.specs.TallyTurns.{counter_of};

pub mod acts;
mod entry;
pub mod kept;

use number::Code;

// How many counters the level has.
pub const COUNTERS: u32 = 32;

// How many of them a place of 64 bytes holds.
pub const PER_PLACE: usize = 16;

// How many slots the level keeps, and how many undo records each has room for.
pub const SLOTS: u8 = 8;

pub const RECORDS: u8 = 16;

#[derive(Clone, Copy, PartialEq, Eq, Debug)]
pub enum TallyOp {
    Add { counter: u32, amount: u32 },
    Read { counter: u32 },
}

// No Option of a value: None would not say that an add was done.
#[derive(Clone, Copy, PartialEq, Eq, Debug)]
pub enum TallyAnswer {
    Added,
    Value(u32),
}

// The amount that takes an add back.
pub fn inverse(amount: u32) -> u32
    ensures { result ≡ inverse_amount amount }
{
    amount.wrapping_neg()
}

// A counter's value after an add.
pub fn sum(value: u32, amount: u32) -> u32
    ensures { result ≡ (value + amount) % 2 ^ 32 }
{
    value.wrapping_add(amount)
}

impl TallyOp {
    // The number of the counter that it is about, which may be beyond the last.
    pub fn counter(self) -> u32
        ensures { result ≡ counter_of self }
    {
        match self {
            TallyOp::Add { counter, .. } | TallyOp::Read { counter } => counter,
        }
    }
}

// The operation as a code.
impl From<TallyOp> for Code {
    ghost from_gives = { CodeOf };

    fn from(op: TallyOp) -> Code {
        match op {
            TallyOp::Add { counter, amount } => Code::Add { counter, amount },
            TallyOp::Read { counter } => Code::Read { counter },
        }
    }
}

// The inverse operation that an undo record holds: an add to one of the counters. None for any other code.
// No TryFrom: the code of a read is that of an operation, and of no undo.
pub fn undo_of(code: Code) -> Option<TallyOp>
    ensures value { result ≡ tally_undo code }
    ensures exact { (op : TallyOp) → result ≡ Some op → (tally_code op ≡ code) × Recordable op }
{
    match code {
        Code::Add { counter, amount } if counter < COUNTERS => Some(TallyOp::Add {
            counter,
            amount,
        }),
        _ => None,
    }
}

// Counter `i` of the place; None beyond its last.
pub fn read_counter(bytes: &[u8; 64], i: usize) -> Option<u32>
    ensures { result ≡ counter_at i bytes.now }
{
    let (counters, _) = bytes.as_chunks();
    counters.get(i).map(|four| u32::from_le_bytes(*four))
}

// Writes counter `i` of the place; None, and nothing changed, beyond its last.
pub fn write_counter(bytes: &mut [u8; 64], i: usize, value: u32) -> Option<()>
    ensures answer { result ≡ then_some (nat_lt i 16) tt }
    ensures written { bytes.new ≡ written_at i value bytes.old }
{
    if i >= PER_PLACE {
        return None;
    }
    // `as_chunks_mut` was tried: a proof knows no byte of an array after a write through it
    let start = 4 * i;
    bytes[start..start + 4].copy_from_slice(&value.to_le_bytes());
    Some(())
}

// Every history of a manager over the level is serial, and recovery with power is granted, under any table of conflicts that has what the laws ask.
pub fn tally_stands()
    ensures serial { TallyIsSerial }
    ensures recovers { TallyRecovers }
    ensures symmetric { Symmetric tally_conflict }
    ensures marks { Marks tally_conflict }
{}

// Counters and their bytes say the same.
pub fn counter_bytes_stand()
    ensures { CounterLaws }
{}
