// A disk: blocks of 256 bytes, a charge (the writes left before power goes), and power or none.
#![tactic(auto)]

ghost use Rattle.std.specs.Prelude.{◌≡◌, length};
ghost use Rattle.disk.specs.Device.{Device, Formed, answer, bar, filled, written, write_answer, powered_up};

use refusal::Refusal;

pub mod banked;
mod blocks;
pub mod memory;
pub mod plain;
pub mod sizes;
mod supply;

pub trait Disk {
    ghost means: { Self → Device };

    // how many blocks there are
    fn count(&self) -> u32
        ensures { result ≡ length (means self.now).blocks };

    fn charge(&self) -> u32
        ensures { result ≡ (means self.now).charge };

    fn is_powered(&self) -> bool
        ensures { result ≡ (means self.now).powered };

    // Fills `out` with block `n`.
    fn read(&self, n: u32, out: &mut [u8; 256]) -> Result<(), Refusal>
        ensures answer { result ≡ answer (bar n (means self.now)) }
        ensures buffer { out.new ≡ filled n (means self.now) out.old };

    // Replaces block `n` and lowers the charge by one; at charge 0 it changes no block and the disk is dark.
    fn write(&mut self, n: u32, v: &[u8; 256]) -> Result<(), Refusal>
        ensures answer { result ≡ write_answer n (means self.old) }
        ensures after { means self.new ≡ written n v.now (means self.old) };

    // Sets the charge and brings power back; always accepted.
    fn power(&mut self, charge: u32)
        ensures { means self.new ≡ powered_up charge (means self.old) };

    ghost formed: { (d : Self) → Formed (means d) };
}
