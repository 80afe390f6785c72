// Numbers below 2^32 as bytes, in the shortest form of LEB128, and operations as bytes made of a kind and such numbers.
#![tactic(auto)]

ghost use Rattle.std.specs.Prelude.{◌≡◌, ℕ, ◌+◌, ◌*◌, ◌^◌, ◌<◌, ◌≤◌, leb as leb≤, List, ◌++◌, length, Some, MatchOption, codes, decimal};
ghost use Rattle.std.specs.List.{AllByRecursion};
ghost use Rattle.number.specs.Bytes.{held, Exact, Written};
ghost use Rattle.number.specs.Codes.{kind_number, kind_of, kind_or_byte, numbers, code_bytes, code_of, reading_code, Small};
ghost use Rattle.number.specs.Examples.{examples, Holds};
ghost use Rattle.number.specs.Leb.{leb, reading};
ghost use Rattle.number.specs.Parts.{Follows, one_or_two};
ghost use Rattle.number.specs.Reads.{Got, Grouped};
ghost use Rattle.number.specs.Zeros.{zeros};

use std::error::Error;
use std::fmt;

// The number that `bytes` begin with and what follows it; None where no number below 2^32 in its shortest form stands there.
pub fn read_number(bytes: &[u8]) -> Option<(u32, &[u8])>
    ensures value { held result ≡ reading bytes.now }
    ensures exact { Exact (λ n. n < 2 ^ 32) leb bytes.now (held result) }
    ensures back { (n : ℕ) (rest : List ℕ) → n < 2 ^ 32 → bytes.now ≡ leb n ++ rest → held result ≡ Some (n, rest) }
{
    read_at_most(bytes, 4)
}

// The same in at most `left + 1` bytes.
fn read_at_most(bytes: &[u8], left: u8) -> Option<(u32, &[u8])>
    requires { left ≤ 4 }
    ensures { Got left bytes.now (held result) }
{
    let (byte, rest) = bytes.split_first()?;
    match group_of(*byte, left)? {
        Group::Last(n) => Some((u32::from(n), rest)),
        Group::More(low) => {
            let (high, rest) = read_at_most(rest, left - 1)?;
            let n = joined(low, high)?;
            Some((n, rest))
        }
    }
}

// What a byte of a number says.
#[derive(Clone, Copy, PartialEq, Eq, Debug)]
enum Group {
    // the seven bits that are the highest
    Last(u8),
    // seven bits, with higher ones in the next byte
    More(u8),
}

// What the byte says, where at most `left` more may come after it; None where it has bits past the 32nd.
fn group_of(byte: u8, left: u8) -> Option<Group>
    ensures { Grouped left byte result }
{
    match byte {
        // the fifth byte has the top four bits alone
        top if left == 0 && top > 0x0f => None,
        last if last < 0x80 => Some(Group::Last(last)),
        more => Some(Group::More(more - 0x80)),
    }
}

// The number of seven low bits and the bits above them; None where none are set above, since then a shorter form is the one to read.
fn joined(low: u8, high: u32) -> Option<u32>
    requires { (low < 2 ^ 7) × (high < 2 ^ 25) }
    ensures { MatchOption result (high ≡ 0) (λ n. (0 < high) × (n ≡ low + 2 ^ 7 * high)) }
{
    (high != 0).then_some(u32::from(low) + 0x80 * high)
}

// How many bytes `n` takes: one for each group of seven bits.
#[tactic(auto, using(crate::proofs::Numbers::length_leb))]
pub fn number_len(n: u32) -> usize
    ensures { result ≡ length (leb n) }
{
    match n {
        0..=0x7f => 1,
        0x80..=0x3fff => 2,
        0x4000..=0x1f_ffff => 3,
        0x20_0000..=0xfff_ffff => 4,
        _ => 5,
    }
}

// Writes `n` into `out` from `at` on, and says where it ends; None, and `out` unchanged, where there is no room.
// A place past the end of `out` is answered None too; with a slice from `at` on, each caller would have to test first.
#[tactic(auto, using(crate::proofs::Numbers::leb_some))]
pub fn write_number(n: u32, out: &mut [u8], at: usize) -> Option<usize>
    ensures { Written (leb n) at out.old out.new result }
{
    let len = number_len(n);
    if !has_room(len, at, out.len()) {
        return None;
    }
    let end = at + len;
    let mut left = n;
    for byte in &mut out[at..end - 1] {
        *byte = (left % 0x80) as u8 + 0x80;
        left /= 0x80;
    }
    out[end - 1] = left as u8;
    Some(end)
}

// Whether `len` bytes from `at` on end within `size`. No sum: it could pass the largest `usize`.
fn has_room(len: usize, at: usize, size: usize) -> bool
    ensures { result ≡ leb≤ (at + len) size }
{
    at <= size && len <= size - at
}

// Whether nothing but zeros stands there.
pub fn only_zeros(bytes: &[u8]) -> bool
    ensures { result ≡ zeros bytes.now }
{
    bytes.iter().all(|byte| *byte == 0)
}

// What an operation does. The number is its byte in a code.
#[derive(Clone, Copy, PartialEq, Eq, Debug)]
pub enum Kind {
    Put = 1,
    Del = 2,
    Get = 3,
    Add = 4,
    Read = 5,
    Set = 6,
    Load = 7,
}

impl From<Kind> for u8 {
    ghost from_gives = { λ kind byte. byte ≡ kind_number kind };

    fn from(kind: Kind) -> u8 {
        kind as u8
    }
}

// A byte that is the number of no kind.
#[derive(Clone, Copy, PartialEq, Eq, Debug)]
pub struct UnknownKind(pub u8);

impl fmt::Display for UnknownKind {
    ghost output = { λ e. Some (codes "no operation has the number " ++ decimal e.0) };

    fn fmt<W: fmt::Write>(&self, f: &mut fmt::Formatter<W>) -> fmt::Result {
        write!(f, "no operation has the number {}", self.0)
    }
}

impl Error for UnknownKind {}

impl TryFrom<u8> for Kind {
    type Error = UnknownKind;

    ghost try_from_gives = { λ byte read. read ≡ kind_or_byte byte };

    fn try_from(byte: u8) -> Result<Kind, UnknownKind> {
        match byte {
            1 => Ok(Kind::Put),
            2 => Ok(Kind::Del),
            3 => Ok(Kind::Get),
            4 => Ok(Kind::Add),
            5 => Ok(Kind::Read),
            6 => Ok(Kind::Set),
            7 => Ok(Kind::Load),
            _ => Err(UnknownKind(byte)),
        }
    }
}

// An operation with its numbers, as an undo record holds it.
#[derive(Clone, Copy, PartialEq, Eq, Debug)]
pub enum Code {
    Put { key: u32, value: u32 },
    Del { key: u32 },
    Get { key: u32 },
    Add { counter: u32, amount: u32 },
    Read { counter: u32 },
    Set { cell: u32 },
    Load { cell: u32 },
}

impl Code {
    pub fn kind(self) -> Kind
        ensures { result ≡ kind_of self }
    {
        match self {
            Code::Put { .. } => Kind::Put,
            Code::Del { .. } => Kind::Del,
            Code::Get { .. } => Kind::Get,
            Code::Add { .. } => Kind::Add,
            Code::Read { .. } => Kind::Read,
            Code::Set { .. } => Kind::Set,
            Code::Load { .. } => Kind::Load,
        }
    }

    // Its numbers, as they follow the kind.
    fn numbers(self) -> (u32, Option<u32>)
        ensures { one_or_two result ≡ numbers self }
    {
        match self {
            Code::Put { key, value } => (key, Some(value)),
            Code::Add { counter, amount } => (counter, Some(amount)),
            Code::Del { key } | Code::Get { key } => (key, None),
            Code::Read { counter } => (counter, None),
            Code::Set { cell } | Code::Load { cell } => (cell, None),
        }
    }

    // How many bytes it takes.
    #[tactic(auto, using(crate::proofs::Numbers::leb_short))]
    fn len(self) -> usize
        ensures { result ≡ length (code_bytes self) }
    {
        let (first, second) = self.numbers();
        1 + number_len(first) + second.map_or(0, number_len)
    }
}

// The code that `bytes` begin with and what follows it; None where no code stands there.
pub fn read_code(bytes: &[u8]) -> Option<(Code, &[u8])>
    ensures value { held result ≡ reading_code bytes.now }
    ensures exact { Exact Small code_bytes bytes.now (held result) }
    ensures back { (c : Code) (rest : List ℕ) → Small c → bytes.now ≡ code_bytes c ++ rest → held result ≡ Some (c, rest) }
{
    let [byte, rest @ ..] = bytes else {
        return None;
    };
    let kind = Kind::try_from(*byte).ok()?;
    let (first, rest) = read_number(rest)?;
    finish_code(kind, first, rest)
}

// The code of the kind whose first number is read, with its second number from `bytes` where it has one.
fn finish_code(kind: Kind, first: u32, bytes: &[u8]) -> Option<(Code, &[u8])>
    ensures value { held result ≡ code_of kind first bytes.now }
    ensures sound { Follows kind first bytes.now (held result) }
{
    let code = match kind {
        Kind::Put => {
            let (value, rest) = read_number(bytes)?;
            return Some((Code::Put { key: first, value }, rest));
        }
        Kind::Add => {
            let (amount, rest) = read_number(bytes)?;
            return Some((
                Code::Add {
                    counter: first,
                    amount,
                },
                rest,
            ));
        }
        Kind::Del => Code::Del { key: first },
        Kind::Get => Code::Get { key: first },
        Kind::Read => Code::Read { counter: first },
        Kind::Set => Code::Set { cell: first },
        Kind::Load => Code::Load { cell: first },
    };
    Some((code, bytes))
}

// Writes the code into `out` from `at` on, and says where it ends; None, and `out` unchanged, where there is no room.
// `out` and `at` stay two, as in `write_number`.
pub fn write_code(code: Code, out: &mut [u8], at: usize) -> Option<usize>
    ensures { Written (code_bytes code) at out.old out.new result }
{
    if !has_room(code.len(), at, out.len()) {
        return None;
    }
    let (first, second) = code.numbers();
    out[at] = u8::from(code.kind());
    let end = write_number(first, out, at + 1)?;
    match second {
        Some(second) => write_number(second, out, end),
        None => Some(end),
    }
}

// The table of examples holds, row by row.
#[tactic(auto, using(crate::proofs::Table::all_hold))]
pub fn examples_hold()
    ensures { AllByRecursion Holds examples }
{}
