// A disk over two equally long memories: blocks 2k and 2k + 1 are block k of the first and of the second, with every bit turned.
ghost use Rattle.std.specs.Prelude.{◌≡◌, ◌/◌, true, length, replicate, Some, None, vec_len, MatchResult};
ghost use Rattle.disk.specs.Layout.{banks_of, bank, banked, device, supplied};
ghost use Rattle.disk.specs.Sizes.{Made, first_of, count_refusal, odd_refusal, bank_refusal};
ghost use Rattle.disk.specs.Banks.{formed_banks};

use crate::blocks::{inverse, invert, load, store};
use crate::memory::{Memory, MemoryDisk, Rejected};
use crate::sizes::{NewError, check_banks, check_count, check_even};
use std::alloc::Global;

#[derive(Drop)]
pub struct BankedMemory {
    banks: [Vec<u8>; 2],
    ghost sized: { bank_refusal (length (bank banks 0)) (length (bank banks 1)) ≡ None },
}

pub type BankedDisk = MemoryDisk<BankedMemory>;

impl Memory for BankedMemory {
    ghost blocks = { λ m. banked m.banks };

    ghost formed = { λ m. formed_banks (bank m.banks 0) (bank m.banks 1) m.sized };

    #[tactic(auto, using(crate::proofs::TwoBanks::of_banks))]
    fn count(&self) -> u32 {
        (self.banks[0].len() / 256 * 2) as u32
    }

    #[tactic(auto, using(crate::proofs::TwoBanks::of_banks))]
    fn load(&self, n: u32, out: &mut [u8; 256]) {
        load(&self.banks[(n % 2) as usize], n / 2, out);
        invert(out);
    }

    #[tactic(auto, using(crate::proofs::TwoBanks::of_banks))]
    fn store(&mut self, n: u32, block: &[u8; 256]) {
        store(&mut self.banks[(n % 2) as usize], n / 2, &inverse(block));
    }
}

impl MemoryDisk<BankedMemory> {
    // A disk over these bytes, whatever they are. It has power and no write left.
    pub fn open(first: Vec<u8>, second: Vec<u8>) -> Result<BankedDisk, Rejected<(Vec<u8>, Vec<u8>)>>
        ensures { MatchResult result
            (λ d. (bank_refusal (vec_len first) (vec_len second) ≡ None)
            × (supplied (banked d.memory.banks) d.supply.left ≡ device (banks_of (vec_len first / 256) first.items second.items) 0 true))
            (λ e. (bank_refusal (vec_len first) (vec_len second) ≡ Some e.refusal)
            × (e.memory.0.items ≡ first.items) × (e.memory.1.items ≡ second.items)) }
    {
        match check_banks(first.len(), second.len()) {
            Ok(()) => Ok(MemoryDisk::over(BankedMemory {
                banks: [first, second],
            })),
            Err(refusal) => Err(Rejected {
                refusal,
                memory: (first, second),
            }),
        }
    }

    // A disk of that many blocks, all zero. It has power and no write left.
    #[tactic(auto, using(crate::proofs::Made::of_zeros))]
    pub fn new(heap: Global, blocks: u32) -> Result<BankedDisk, NewError>
        ensures { Made (first_of (count_refusal blocks) (odd_refusal blocks))
            (λ d. supplied (banked d.memory.banks) d.supply.left ≡ device (replicate blocks (replicate 256 0)) 0 true) result }
    {
        check_count(u64::from(blocks))?;
        check_even(blocks)?;
        let len = 128 * blocks as usize;
        let first = vec![in heap; 0xffu8; len]?;
        let second = vec![in heap; 0xffu8; len]?;
        Ok(MemoryDisk::over(BankedMemory {
            banks: [first, second],
        }))
    }

    // Both memories, with all that the disk held. They can be opened again.
    pub fn into_memory(self) -> (Vec<u8>, Vec<u8>)
        ensures memory { (result.0.items ≡ bank self.memory.banks 0) × (result.1.items ≡ bank self.memory.banks 1) }
        ensures blocks { banks_of (vec_len result.0 / 256) result.0.items result.1.items ≡ banked self.memory.banks }
        ensures opens { bank_refusal (vec_len result.0) (vec_len result.1) ≡ None }
    {
        let MemoryDisk { memory, .. } = self;
        let [first, second] = memory.banks;
        (first, second)
    }
}
