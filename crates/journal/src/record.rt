// The commit record: how many pages, their numbers, and zeros.
ghost use Rattle.std.specs.Prelude.{◌≡◌, ◌+◌, ◌≤◌, length, nat_le};
ghost use Rattle.refusal.specs.declared.Reason.TheVariants as reason;
ghost use Rattle.refusal.specs.Refusals.{refusal};
ghost use Rattle.journal.specs.Groups.{told};
ghost use Rattle.journal.specs.Names.{names};
ghost use Rattle.journal.specs.Record.{record_of, pages_from, named};

use crate::group::Group;
use crate::state::{LAYER, LIMIT};
use number::{only_zeros, read_number, write_number};
use refusal::{Reason, Refusal};

// The record of no page: its number is 0.
pub const EMPTY_RECORD: [u8; 256] = [0; 256];

// A block that is no commit record.
#[derive(Clone, Copy, PartialEq, Eq, Debug)]
pub struct Damage;

impl From<Damage> for Refusal {
    ghost from_gives = { λ _ r. r ≡ refusal reason.Damaged 1 0 };

    fn from(_damage: Damage) -> Refusal {
        Refusal::new(Reason::Damaged, LAYER, 0)
    }
}

// The record that names these pages. Seven numbers take 35 bytes at most, so there is always room.
pub fn commit_record(group: &Group) -> [u8; 256]
    ensures { result ≡ record_of (names group.now) }
{
    let mut record = [0u8; 256];
    let mut end = write_number(group.pages.len() as u32, &mut record, 0).unwrap();
    for p in &group.pages {
        end = write_number(u32::from(p.page), &mut record, end).unwrap();
    }
    record
}

// Reads `left` pages more, each one of the store's and none twice, and then zeros to the end; it adds them to the group.
fn read_pages(bytes: &[u8], left: u32, cells: u32, group: &mut Group) -> Result<(), Damage>
    requires room { length group.old + left ≤ 6 }
    requires few { cells ≤ 4096 }
    ensures { told result (names group.new) ≡ pages_from left cells (names group.old) bytes.now }
{
    if left == 0 {
        return only_zeros(bytes).then_some(()).ok_or(Damage);
    }
    let (page, rest) = read_number(bytes).ok_or(Damage)?;
    if page >= cells {
        return Err(Damage);
    }
    let page = page as u16;
    if group.has(page) {
        return Err(Damage);
    }
    // its bytes are read from its frame later
    group.add(page, &[0; 256]);
    read_pages(rest, left - 1, cells, group)
}

// A record names no more pages than there are frames.
fn nameable(count: u32) -> bool
    ensures { result ≡ nat_le count 6 }
{
    count <= LIMIT
}

// Reads a commit record of a store of so many cells.
pub fn read_record(block: &[u8; 256], cells: u32, group: &mut Group) -> Result<(), Damage>
    requires { cells ≤ 4096 }
    ensures { told result (names group.new) ≡ named cells block.now }
{
    group.clear();
    let (count, rest) = read_number(block).ok_or(Damage)?;
    if !nameable(count) {
        return Err(Damage);
    }
    read_pages(rest, count, cells, group)
}
