// The sizes that a disk may have.
ghost use Rattle.std.specs.Prelude.{◌≡◌, if◌then◌else◌, Some, None};
ghost use Rattle.disk.specs.Device.{answer};
ghost use Rattle.disk.specs.Sizes.{wrong, part_refusal, count_refusal, size_refusal, unequal_refusal, bank_refusal, odd_refusal};
ghost use Rattle.disk.specs.declared.sizes.NewError.TheVariants.{Refused, NoMemory};

use refusal::{Reason, Refusal};
use std::alloc::AllocError;

// Why no new disk was made.
#[derive(Clone, Copy, PartialEq, Eq, Debug)]
pub enum NewError {
    // the number of blocks is refused
    Refused(Refusal),
    // the heap has no room for the blocks
    NoMemory,
}

impl From<Refusal> for NewError {
    ghost from_gives = { λ refusal e. e ≡ Refused refusal };

    fn from(refusal: Refusal) -> NewError {
        NewError::Refused(refusal)
    }
}

impl From<AllocError> for NewError {
    ghost from_gives = { λ _ e. e ≡ NoMemory };

    fn from(_error: AllocError) -> NewError {
        NewError::NoMemory
    }
}

// A size that does not fit is refused, by the number that was found.
fn fit(fits: bool, found: u64) -> Result<(), Refusal>
    ensures { result ≡ answer (if fits then None else Some (wrong found)) }
{
    if fits {
        Ok(())
    } else {
        Err(Refusal::new(Reason::WrongSize, 0, found))
    }
}

// A memory has whole blocks.
fn check_whole(len: usize) -> Result<(), Refusal>
    ensures { result ≡ answer (part_refusal len) }
{
    fit(len % 256 == 0, len as u64)
}

// A disk has 8 to 4,096 blocks.
pub(crate) fn check_count(count: u64) -> Result<(), Refusal>
    ensures { result ≡ answer (count_refusal count) }
{
    fit((8..=4096).contains(&count), count)
}

// Of an odd count the second bank would have half, rounded down: one block less than the first.
pub(crate) fn check_even(count: u32) -> Result<(), Refusal>
    ensures { result ≡ answer (odd_refusal count) }
{
    fit(count % 2 == 0, u64::from(count) / 2 * 256)
}

// A memory of that length makes a disk.
pub(crate) fn check_size(len: usize) -> Result<(), Refusal>
    ensures { result ≡ answer (size_refusal len) }
{
    check_whole(len)?;
    check_count((len / 256) as u64)
}

// Two banks of those lengths make a disk.
pub(crate) fn check_banks(first: usize, second: usize) -> Result<(), Refusal>
    ensures { result ≡ answer (bank_refusal first second) }
{
    check_whole(first)?;
    check_whole(second)?;
    check_count((first / 256 + second / 256) as u64)?;
    fit(first == second, second as u64)
}
