// What a disk keeps its blocks in, and a disk over any of it.
ghost use Rattle.std.specs.Prelude.{◌≡◌, ℕ, ◌<◌, Bool, List, [], length, Some, slice_index_or, slice_set};
ghost use Rattle.disk.specs.Device.{Formed};
ghost use Rattle.disk.specs.Layout.{device, supplied};

use crate::Disk;
use crate::supply::Supply;
use refusal::Refusal;

pub trait Memory {
    ghost blocks: { Self → List (List ℕ) };

    // how many blocks there are
    fn count(&self) -> u32
        ensures { result ≡ length (blocks self.now) };

    // Fills `out` with block `n`.
    fn load(&self, n: u32, out: &mut [u8; 256])
        requires { n < length (blocks self.now) }
        ensures { out.new ≡ slice_index_or (blocks self.now) n [] };

    // Replaces block `n`.
    fn store(&mut self, n: u32, block: &[u8; 256])
        requires { n < length (blocks self.old) }
        ensures { blocks self.new ≡ slice_set (blocks self.old) n block.now };

    // whatever the charge and the power, its blocks make a disk
    ghost formed: { (m : Self) (charge : ℕ) (powered : Bool) → Formed (device (blocks m) charge powered) };
}

// A disk whose blocks stand in that memory. Nothing prints or compares a whole disk, so it is Drop alone, as the memories are.
#[derive(Drop)]
pub struct MemoryDisk<M> {
    pub(crate) memory: M,
    pub(crate) supply: Supply,
}

// Memory that makes no disk, and why.
#[derive(Debug, Drop)]
pub struct Rejected<M> {
    pub refusal: Refusal,
    pub memory: M,
}

impl<M> MemoryDisk<M> {
    // A disk with power and no write left.
    pub(crate) fn over(memory: M) -> MemoryDisk<M>
        ensures memory { result.memory ≡ memory }
        ensures supply { result.supply.left ≡ Some 0 }
    {
        MemoryDisk {
            memory,
            supply: Supply::new(0),
        }
    }
}

impl<M: Memory> Disk for MemoryDisk<M> {
    ghost means = { λ d. supplied (M.blocks d.memory) d.supply.left };

    ghost formed = { λ d. M.formed d.memory _ _ };

    fn count(&self) -> u32 {
        self.memory.count()
    }

    fn charge(&self) -> u32 {
        self.supply.charge()
    }

    fn is_powered(&self) -> bool {
        self.supply.is_powered()
    }

    #[tactic(auto, using(crate::proofs::Calls::of_reads))]
    fn read(&self, n: u32, out: &mut [u8; 256]) -> Result<(), Refusal> {
        self.supply.admit(n, self.memory.count())?;
        self.memory.load(n, out);
        Ok(())
    }

    #[tactic(auto, using(crate::proofs::Calls::of_writes))]
    fn write(&mut self, n: u32, v: &[u8; 256]) -> Result<(), Refusal> {
        self.supply.spend(n, self.memory.count())?;
        self.memory.store(n, v);
        Ok(())
    }

    fn power(&mut self, charge: u32) {
        self.supply = Supply::new(charge);
    }
}
