// A running slot, as a call that writes or takes back undo records finds it.
ghost use Rattle.std.specs.Prelude.{◌<◌, ◌≤◌};

use crate::turns::{Located, Plan};

// The slot table, one of its slots that runs, and how many undo records that slot has.
#[derive(Clone, Copy, PartialEq, Eq, Debug)]
pub struct RunningSlot {
    pub plan: Plan,
    pub found: Located,
    pub records: u8,
    ghost inside: { found.number < plan.slots },
    ghost recorded: { records ≤ plan.records },
}
