// A disk over memory of its own: block n lies at byte 256 * n.
ghost use Rattle.std.specs.Prelude.{◌≡◌, true, replicate, Some, None, vec_len, MatchResult};
ghost use Rattle.disk.specs.Layout.{blocks_in, device, supplied};
ghost use Rattle.disk.specs.Sizes.{Made, count_refusal, size_refusal};
ghost use Rattle.disk.specs.Blocks.{formed_blocks};

use crate::blocks::{load, store};
use crate::memory::{Memory, MemoryDisk, Rejected};
use crate::sizes::{NewError, check_count, check_size};
use std::alloc::Global;

#[derive(Drop)]
pub struct PlainMemory {
    bytes: Vec<u8>,
    ghost sized: { size_refusal (vec_len bytes) ≡ None },
}

pub type PlainDisk = MemoryDisk<PlainMemory>;

impl Memory for PlainMemory {
    ghost blocks = { λ m. blocks_in m.bytes };

    ghost formed = { λ m. formed_blocks (vec_len m.bytes) m.bytes.items m.bytes.ok.0 m.sized };

    #[tactic(auto, using(crate::specs::Blocks::length_blocks))]
    fn count(&self) -> u32 {
        (self.bytes.len() / 256) as u32
    }

    #[tactic(auto, using(crate::proofs::OneMemory::of_memory))]
    fn load(&self, n: u32, out: &mut [u8; 256]) {
        load(&self.bytes, n, out);
    }

    #[tactic(auto, using(crate::proofs::OneMemory::of_memory))]
    fn store(&mut self, n: u32, block: &[u8; 256]) {
        store(&mut self.bytes, n, block);
    }
}

impl MemoryDisk<PlainMemory> {
    // A disk over these bytes, whatever they are. It has power and no write left.
    pub fn open(memory: Vec<u8>) -> Result<PlainDisk, Rejected<Vec<u8>>>
        ensures { MatchResult result
            (λ d. (size_refusal (vec_len memory) ≡ None) × (supplied (blocks_in d.memory.bytes) d.supply.left ≡ device (blocks_in memory) 0 true))
            (λ e. (size_refusal (vec_len memory) ≡ Some e.refusal) × (e.memory.items ≡ memory.items)) }
    {
        match check_size(memory.len()) {
            Ok(()) => Ok(MemoryDisk::over(PlainMemory { bytes: memory })),
            Err(refusal) => Err(Rejected { refusal, memory }),
        }
    }

    // A disk of that many blocks, all zero. It has power and no write left.
    #[tactic(auto, using(crate::proofs::Made::of_zeros))]
    pub fn new(heap: Global, blocks: u32) -> Result<PlainDisk, NewError>
        ensures { Made (count_refusal blocks)
            (λ d. supplied (blocks_in d.memory.bytes) d.supply.left ≡ device (replicate blocks (replicate 256 0)) 0 true) result }
    {
        check_count(u64::from(blocks))?;
        let bytes = vec![in heap; 0u8; 256 * blocks as usize]?;
        Ok(MemoryDisk::over(PlainMemory { bytes }))
    }

    // The memory, with all that the disk held. It can be opened again.
    pub fn into_memory(self) -> Vec<u8>
        ensures memory { result.items ≡ self.memory.bytes.items }
        ensures blocks { blocks_in result ≡ blocks_in self.memory.bytes }
        ensures opens { size_refusal (vec_len result) ≡ None }
    {
        let MemoryDisk { memory, .. } = self;
        memory.bytes
    }
}
