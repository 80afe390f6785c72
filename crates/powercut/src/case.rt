// One commit that power cuts, on a new journal over a new disk.
ghost use Rattle.std.specs.Prelude.{◌≡◌, ◌≤◌, true, replicate, None, OnOk};
ghost use Rattle.disk.specs.Layout.{device};
ghost use Rattle.disk.specs.Sizes.{Made};
ghost use Rattle.refusal.specs.declared.Phase.TheVariants.{Open};
ghost use Rattle.store.specs.Meaning.{phase_of, idle};

use crate::content::{Stands, Version, look, open_group, write_first, write_group};
use disk::Disk;
use disk::banked::BankedDisk;
use disk::plain::PlainDisk;
use disk::sizes::NewError;
use journal::Journal;
use refusal::{Reason, Refusal};
use std::alloc::Global;
use std::{fmt, io};
use store::{Store, Token};
use survive::{revive, survive};

const BLOCKS: u32 = 24;

// More writes than any part of a case makes.
const ENOUGH: u32 = 1000;

// The pages that commits change, in the order of their puts.
const PAGES: [u32; 6] = [5, 0, 16, 3, 12, 7];

// A disk that the program tries: its name in the lines, and a new one, all zero, with power and no write left.
pub trait Trial: Disk + Drop {
    const NAME: &'static str;

    fn fresh(heap: Global) -> Result<Self, NewError>
        ensures { Made None (λ d. Self.means d ≡ device (replicate 24 (replicate 256 0)) 0 true) result };
}

impl Trial for PlainDisk {
    const NAME: &'static str = "plain";

    fn fresh(heap: Global) -> Result<PlainDisk, NewError> {
        PlainDisk::new(heap, BLOCKS)
    }
}

impl Trial for BankedDisk {
    const NAME: &'static str = "banks";

    fn fresh(heap: Global) -> Result<BankedDisk, NewError> {
        BankedDisk::new(heap, BLOCKS)
    }
}

// A commit of so many pages, with that many writes left before power goes.
#[derive(Clone, Copy, PartialEq, Eq, Debug)]
pub struct Case {
    pub pages: u32,
    pub charge: u32,
    ghost few: { pages ≤ 6 },
}

impl Case {
    pub fn new(pages: u32, charge: u32) -> Case
        requires { pages ≤ 6 }
        ensures { (result.pages ≡ pages) × (result.charge ≡ charge) }
    {
        Case { pages, charge }
    }

    fn changes(&self) -> &'static [u32] {
        &PAGES[0..self.pages as usize]
    }
}

impl fmt::Display for Case {
    fn fmt<W: fmt::Write>(&self, f: &mut fmt::Formatter<W>) -> fmt::Result {
        write!(f, "{} {}", self.pages, self.charge)
    }
}

// What the commit answered, and what stands once power is back.
#[derive(Clone, Copy, PartialEq, Eq, Debug)]
pub struct End {
    pub answer: Result<(), Refusal>,
    pub stands: Stands,
}

impl fmt::Display for End {
    fn fmt<W: fmt::Write>(&self, f: &mut fmt::Formatter<W>) -> fmt::Result {
        match self.answer {
            Ok(()) => write!(f, "ok {}", self.stands),
            Err(refusal) => write!(f, "no {refusal} {}", self.stands),
        }
    }
}

// Whether power cut the recovery, and what stands at the end. Neither says the other, so an enum for `cut` would only rename yes and no.
#[derive(Clone, Copy, PartialEq, Eq, Debug)]
pub struct Recovery {
    pub cut: bool,
    pub stands: Stands,
}

// Why the program ends early.
#[derive(Debug, Drop)]
pub enum Fault {
    Refused(Refusal),
    NoMemory,
    Output(io::Error),
}

impl From<Refusal> for Fault {
    fn from(refusal: Refusal) -> Fault {
        Fault::Refused(refusal)
    }
}

impl From<NewError> for Fault {
    fn from(error: NewError) -> Fault {
        match error {
            NewError::Refused(refusal) => Fault::Refused(refusal),
            NewError::NoMemory => Fault::NoMemory,
        }
    }
}

impl From<io::Error> for Fault {
    fn from(error: io::Error) -> Fault {
        Fault::Output(error)
    }
}

fn new_journal<D: Trial>(heap: Global) -> Result<Journal<D>, Fault> {
    Journal::new(heap, D::fresh(heap)?).map_err(|_| Fault::NoMemory)
}

// Every page has its first version, those of the case the old one, and the new one is put: its commit is to come, with the charge of the case.
fn prepare<S: Store>(store: &mut S, case: Case) -> Result<Token, Refusal>
    ensures { OnOk result (phase_of (S.means store.new).stage ≡ Open) }
{
    revive(store, ENOUGH)?;
    write_first(store)?;
    write_group(store, case.changes(), Version::Old)?;
    revive(store, case.charge)?;
    open_group(store, case.changes(), Version::New)
}

fn run_commit<S: Store>(store: &mut S, case: Case) -> Result<End, Fault>
    ensures { OnOk result ((S.means store.new).stage ≡ idle) }
{
    let token = prepare(store, case)?;
    let answer = survive(store, token, ENOUGH)?;
    let stands = look(store, case.changes())?;
    Ok(End { answer, stands })
}

// Commits and recovers with that charge and, where power cuts the recovery, recovers again with enough.
// Answers whether it was cut: a bool, since an enum would only rename yes and no.
fn recover_twice<S: Store>(store: &mut S, token: Token, charge: u32) -> Result<bool, Refusal>
    ensures { phase_of (S.means store.old).stage ≡ Open → OnOk result ((S.means store.new).stage ≡ idle) }
{
    match survive(store, token, charge) {
        Ok(_) => Ok(false),
        Err(refusal) if refusal.reason == Reason::Dark => {
            revive(store, ENOUGH)?;
            Ok(true)
        }
        Err(refusal) => Err(refusal),
    }
}

// Not one function with `run_commit`: a step that is handed in would need its promise written out once more.
fn run_recovery<S: Store>(store: &mut S, case: Case, charge: u32) -> Result<Recovery, Fault>
    ensures { OnOk result ((S.means store.new).stage ≡ idle) }
{
    let token = prepare(store, case)?;
    let cut = recover_twice(store, token, charge)?;
    let stands = look(store, case.changes())?;
    Ok(Recovery { cut, stands })
}

// The commit of the case, and then a recovery with enough charge.
pub fn cut_commit<D: Trial>(heap: Global, case: Case) -> Result<End, Fault> {
    run_commit(&mut new_journal::<D>(heap)?, case)
}

// The commit of the case, then a recovery with that charge and, where power cuts it, one with enough.
pub fn cut_recovery<D: Trial>(heap: Global, case: Case, charge: u32) -> Result<Recovery, Fault> {
    run_recovery(&mut new_journal::<D>(heap)?, case, charge)
}
