// A journal: its disk, where it stands while there is power, and the open group.
ghost use Rattle.journal.specs.Meaning.{Wholly};
ghost use Rattle.journal.specs.Once.{Wholly-prop};

use crate::group::Group;
use disk::Disk;

// A journal is the first layer above its disk.
pub const LAYER: u32 = 1;

// The puts that a group takes, and so the frames that there are.
pub const LIMIT: u32 = 6;

// The blocks before the first page: the commit record and the frames.
pub const FIRST_PAGE: u32 = 7;

// Where a journal stands, power aside: the disk itself knows whether it is dark.
#[derive(Clone, Copy, PartialEq, Eq, Debug)]
pub enum Mode {
    Due,
    Idle,
    // a group is open, with so many puts
    Open { puts: u32 },
}

// Nothing prints or compares a disk or a group, so it is Drop alone, as its group is.
#[derive(Drop)]
pub struct Journal<D: Disk> {
    pub(crate) disk: D,
    pub(crate) mode: Mode,
    pub(crate) group: Group,
    ghost whole: { Wholly (D.means disk) mode group } by { Wholly-prop (D.means disk) mode group },
}
