// An undo record of a running slot, for the calls that write it or take it back.
ghost use Rattle.std.specs.Prelude.{◌<◌};

use level::turns::Located;

// The slot table as it was read and a slot that runs, and one of the slot's undo records.
// It holds no store: that the store's table is still this one is a premise of what is promised of the calls.
// Its methods stand in `acts`, since a struct with ghost fields imports each `ghost use` of its file.
#[derive(Clone, Copy, PartialEq, Eq, Debug)]
pub struct Entry {
    pub layer: u32,
    pub found: Located,
    pub index: u8,
    ghost in_table: { found.number < 8 },
    ghost in_slot: { index < 16 },
}
