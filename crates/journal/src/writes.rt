// The block writes of a commit and of a recovery, each up to the first that is refused.
ghost use Rattle.std.specs.Prelude.{◌≡◌, ◌<◌, [], ◌∷◌};
ghost use Rattle.disk.specs.Runs.{ran, ran_answer};
ghost use Rattle.journal.specs.Names.{names};
ghost use Rattle.journal.specs.Layout.{block_at, writes_to, commit_order, part_writes, writes_of};
ghost use Rattle.journal.specs.Record.{record_of};

use crate::group::Group;
use crate::record::{EMPTY_RECORD, commit_record};
use crate::state::FIRST_PAGE;
use disk::Disk;
use refusal::Refusal;

// Where the pages of a group are written: into the frames, or into their own blocks.
// A function in its place would be no plainer: contracts speak of the two by name.
#[derive(Clone, Copy, PartialEq, Eq, Debug)]
pub enum Side {
    Frames,
    Pages,
}

// The parts of a commit.
#[derive(Clone, Copy, PartialEq, Eq, Debug)]
pub enum Part {
    Frames,
    Record,
    Pages,
    EmptyRecord,
}

// A commit's parts in their order. A recovery makes the last two once more.
pub fn commit_parts() -> [Part; 4]
    ensures { result ≡ commit_order }
{
    [Part::Frames, Part::Record, Part::Pages, Part::EmptyRecord]
}

fn block(side: Side, turn: usize, page: u16) -> u32
    requires { turn < 6 }
    ensures { result ≡ block_at side turn page }
{
    match side {
        Side::Frames => 1 + turn as u32,
        Side::Pages => FIRST_PAGE + u32::from(page),
    }
}

fn write_pages<D: Disk>(disk: &mut D, side: Side, group: &Group) -> Result<(), Refusal>
    ensures after { D.means disk.new ≡ ran (writes_to side 0 group.now) (D.means disk.old) }
    ensures answer { result ≡ ran_answer (writes_to side 0 group.now) (D.means disk.old) }
{
    for (turn, p) in group.pages.iter().enumerate() {
        disk.write(block(side, turn, p.page), &p.bytes)?;
    }
    Ok(())
}

fn write_record<D: Disk>(disk: &mut D, group: &Group) -> Result<(), Refusal>
    ensures after { D.means disk.new ≡ ran ((0, record_of (names group.now)) ∷ []) (D.means disk.old) }
    ensures answer { result ≡ ran_answer ((0, record_of (names group.now)) ∷ []) (D.means disk.old) }
{
    disk.write(0, &commit_record(group))
}

// A match on the part, not a table of functions: each takes the disk's type, and a table would have to be made for each.
fn write_part<D: Disk>(disk: &mut D, part: Part, group: &Group) -> Result<(), Refusal>
    ensures after { D.means disk.new ≡ ran (part_writes part group.now) (D.means disk.old) }
    ensures answer { result ≡ ran_answer (part_writes part group.now) (D.means disk.old) }
{
    match part {
        Part::Frames => write_pages(disk, Side::Frames, group),
        Part::Record => write_record(disk, group),
        Part::Pages => write_pages(disk, Side::Pages, group),
        Part::EmptyRecord => disk.write(0, &EMPTY_RECORD),
    }
}

// These parts of a commit of the group; nothing for no pages.
pub fn write_parts<D: Disk>(disk: &mut D, parts: &[Part], group: &Group) -> Result<(), Refusal>
    ensures after { D.means disk.new ≡ ran (writes_of parts.now group.now) (D.means disk.old) }
    ensures answer { result ≡ ran_answer (writes_of parts.now group.now) (D.means disk.old) }
{
    if group.is_empty() {
        return Ok(());
    }
    for part in parts {
        write_part(disk, *part, group)?;
    }
    Ok(())
}
