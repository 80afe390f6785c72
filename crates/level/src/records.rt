// Undo records: a code, and zeros to the end of its place.
ghost use Rattle.std.specs.Prelude.{◌≡◌, if◌then◌else◌, Some, None};
ghost use Rattle.number.specs.Zeros.{zeros};
ghost use Rattle.number.specs.Codes.{Small};
ghost use Rattle.level.specs.Records.{record_bytes, reading_record, record_place, Exact};

use number::{Code, only_zeros, read_code};

// The code of a record, where nothing but zeros follows it.
fn alone(code: Code, rest: &[u8]) -> Option<Code>
    ensures { result ≡ (if zeros rest.now then Some code else None) }
{
    only_zeros(rest).then_some(code)
}

// The code that the bytes of a place record; None where they are no record.
pub fn read_record(bytes: &[u8; 64]) -> Option<Code>
    ensures value { result ≡ reading_record bytes.now }
    ensures exact { Exact bytes.now result }
    ensures back { (c : Code) → Small c → bytes.now ≡ record_bytes c → result ≡ Some c }
{
    let (code, rest) = read_code(bytes)?;
    alone(code, rest)
}

// The place of record `j` of slot `t`, where each slot has `records` of them after the slot table.
pub fn record_place(records: u8, t: u8, j: u8) -> u32
    ensures { result ≡ record_place records t j }
{
    1 + u32::from(records) * u32::from(t) + u32::from(j)
}
