// Prints numbers and codes with their bytes, and whether the writer and the reader agree with the table.
#![tactic(auto)]

ghost use Rattle.std.specs.Prelude.{◌≤◌, length, IfSome};

use number::{Code, read_code, read_number, write_code, write_number};
use std::{fmt, io};

// The six that the DWARF standard gives for this form, and then the edges of each length.
const NUMBERS: [(u32, &[u8]); 14] = [
    (2, &[0x02]),
    (127, &[0x7f]),
    (128, &[0x80, 0x01]),
    (129, &[0x81, 0x01]),
    (130, &[0x82, 0x01]),
    (12857, &[0xb9, 0x64]),
    (0, &[0x00]),
    (16383, &[0xff, 0x7f]),
    (16384, &[0x80, 0x80, 0x01]),
    (2097151, &[0xff, 0xff, 0x7f]),
    (2097152, &[0x80, 0x80, 0x80, 0x01]),
    (268435455, &[0xff, 0xff, 0xff, 0x7f]),
    (268435456, &[0x80, 0x80, 0x80, 0x80, 0x01]),
    (4294967295, &[0xff, 0xff, 0xff, 0xff, 0x0f]),
];

// Too few bytes, forms that are not the shortest, and numbers of 2^32 and more.
const NO_NUMBERS: [&[u8]; 7] = [
    &[],
    &[0x80],
    &[0x80, 0x00],
    &[0x80, 0x80, 0x00],
    &[0xff, 0xff, 0xff, 0xff, 0x10],
    &[0xff, 0xff, 0xff, 0xff, 0x1f],
    &[0x80, 0x80, 0x80, 0x80, 0x80, 0x01],
];

const CODES: [(Code, &[u8]); 9] = [
    (Code::Put { key: 300, value: 7 }, &[0x01, 0xac, 0x02, 0x07]),
    (Code::Del { key: 300 }, &[0x02, 0xac, 0x02]),
    (Code::Get { key: 0 }, &[0x03, 0x00]),
    (
        Code::Add {
            counter: 3,
            amount: 1,
        },
        &[0x04, 0x03, 0x01],
    ),
    (
        Code::Add {
            counter: 3,
            amount: 4294967295,
        },
        &[0x04, 0x03, 0xff, 0xff, 0xff, 0xff, 0x0f],
    ),
    (Code::Read { counter: 127 }, &[0x05, 0x7f]),
    (Code::Set { cell: 128 }, &[0x06, 0x80, 0x01]),
    (Code::Load { cell: 16384 }, &[0x07, 0x80, 0x80, 0x01]),
    (
        Code::Put {
            key: 4294967295,
            value: 4294967295,
        },
        &[
            0x01, 0xff, 0xff, 0xff, 0xff, 0x0f, 0xff, 0xff, 0xff, 0xff, 0x0f,
        ],
    ),
];

// No kind, kinds that there are not, and numbers that are missing or no numbers.
const NO_CODES: [&[u8]; 8] = [
    &[],
    &[0x00, 0x01],
    &[0x08, 0x01],
    &[0xff, 0x01],
    &[0x02],
    &[0x01, 0x05],
    &[0x04, 0x03],
    &[0x01, 0x80, 0x00, 0x07],
];

// Bytes in hex.
#[derive(Clone, Copy, PartialEq, Eq, Debug)]
struct Hex<'a>(&'a [u8]);

impl fmt::Display for Hex<'_> {
    fn fmt<W: fmt::Write>(&self, f: &mut fmt::Formatter<W>) -> fmt::Result {
        for byte in self.0 {
            write!(f, "{byte:02X} ")?;
        }
        Ok(())
    }
}

// How many lines are the same as the table.
#[derive(Clone, Copy, PartialEq, Eq, Debug, Default)]
struct Tally {
    same: u32,
    different: u32,
}

impl Tally {
    // Counts a line, and says what it ends with.
    fn word(&mut self, same: bool) -> &'static str {
        if same {
            self.same = self.same.saturating_add(1);
            "same"
        } else {
            self.different = self.different.saturating_add(1);
            "DIFFERENT"
        }
    }
}

impl fmt::Display for Tally {
    fn fmt<W: fmt::Write>(&self, f: &mut fmt::Formatter<W>) -> fmt::Result {
        write!(f, "{} same, {} DIFFERENT", self.same, self.different)
    }
}

// What the table gives with its bytes: a number or a code.
trait Sample: Copy + PartialEq + fmt::Debug {
    // What bytes that hold none of these are printed as.
    const NONE: &'static str;

    fn write(self, out: &mut [u8]) -> Option<usize>
        ensures { IfSome result (λ end. end ≤ length out.new) };

    fn read(bytes: &[u8]) -> Option<(Self, &[u8])>;
}

impl Sample for u32 {
    const NONE: &'static str = "no number";

    fn write(self, out: &mut [u8]) -> Option<usize> {
        write_number(self, out, 0)
    }

    fn read(bytes: &[u8]) -> Option<(u32, &[u8])> {
        read_number(bytes)
    }
}

impl Sample for Code {
    const NONE: &'static str = "no code";

    fn write(self, out: &mut [u8]) -> Option<usize> {
        write_code(self, out, 0)
    }

    fn read(bytes: &[u8]) -> Option<(Code, &[u8])> {
        read_code(bytes)
    }
}

fn agrees<S: Sample>(sample: S, bytes: &[u8]) -> bool {
    let mut out = [0; 16];
    let written = sample
        .write(&mut out)
        .is_some_and(|end| &out[..end] == bytes);
    let read = S::read(bytes).is_some_and(|(back, rest)| back == sample && rest.is_empty());
    written && read
}

fn show<S: Sample>(rt: &HostRuntime, tally: &mut Tally, samples: &[(S, &[u8])]) -> io::Result<()> {
    for (sample, bytes) in samples {
        let hex = Hex(bytes);
        let word = tally.word(agrees(*sample, bytes));
        println!(rt; "{sample:?}: {hex}{word}")?;
    }
    Ok(())
}

fn show_none<S: Sample>(rt: &HostRuntime, tally: &mut Tally, samples: &[&[u8]]) -> io::Result<()> {
    for bytes in samples {
        let none = S::NONE;
        let hex = Hex(bytes);
        let word = tally.word(S::read(bytes).is_none());
        println!(rt; "{none}: {hex}{word}")?;
    }
    Ok(())
}

fn main(rt: HostRuntime) -> io::Result<()> {
    let mut tally = Tally::default();
    show(&rt, &mut tally, &NUMBERS)?;
    show_none::<u32>(&rt, &mut tally, &NO_NUMBERS)?;
    show(&rt, &mut tally, &CODES)?;
    show_none::<Code>(&rt, &mut tally, &NO_CODES)?;
    println!(rt; "{tally}")
}
