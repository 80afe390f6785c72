// Recovery: what the commit record names is copied from the frames once more.
ghost use Rattle.std.specs.Prelude.{◌≡◌, true, Ok};
ghost use Rattle.disk.specs.Runs.{ran};
ghost use Rattle.journal.specs.Names.{names};
ghost use Rattle.journal.specs.Layout.{cells_of, framed, naming, recover_writes};
ghost use Rattle.journal.specs.Meaning.{recover_answer};

use crate::group::Group;
use crate::record::read_record;
use crate::state::FIRST_PAGE;
use crate::writes::{commit_parts, write_parts};
use disk::Disk;
use refusal::Refusal;

// Reads the frames into the group that names their pages.
fn load_frames<D: Disk>(disk: &D, group: &mut Group) -> Result<(), Refusal>
    ensures { (D.means disk.now).powered ≡ true → (result ≡ Ok tt) × (group.new ≡ framed 0 (names group.old) (D.means disk.now).blocks) }
{
    for (turn, p) in group.pages.iter_mut().enumerate() {
        disk.read(1 + turn as u32, &mut p.bytes)?;
    }
    Ok(())
}

// How many pages a disk has room for.
pub fn pages_of<D: Disk>(disk: &D) -> u32
    ensures { result ≡ cells_of (D.means disk.now).blocks }
{
    disk.count() - FIRST_PAGE
}

// Finishes the commit that power cut, if the record names any page.
pub fn restore<D: Disk>(disk: &mut D, group: &mut Group) -> Result<(), Refusal>
    ensures after { (D.means disk.old).powered ≡ true → D.means disk.new ≡ ran (recover_writes (naming (D.means disk.old).blocks) (D.means disk.old).blocks) (D.means disk.old) }
    ensures answer { (D.means disk.old).powered ≡ true → result ≡ recover_answer (naming (D.means disk.old).blocks) (D.means disk.old) }
{
    let mut block = [0; 256];
    disk.read(0, &mut block)?;
    read_record(&block, pages_of(disk), group)?;
    load_frames(disk, group)?;
    // the last two parts of the commit that power cut
    write_parts(disk, &commit_parts()[2..], group)
}
