// The charge and the power of a disk: what a call has to pass before it reaches a block.
ghost use Rattle.std.specs.Prelude.{◌≡◌, Some, is_some, unwrap_or};
ghost use Rattle.disk.specs.Gate.{charged, admitted, spent, left_after};

use refusal::{Reason, Refusal};

#[derive(Clone, Copy, PartialEq, Eq, Debug)]
pub struct Supply {
    // the writes left before power goes, and none where the disk is dark
    left: Option<u32>,
}

impl Supply {
    // Power, and so many writes before it goes.
    pub fn new(charge: u32) -> Supply
        ensures { result.left ≡ Some charge }
    {
        Supply { left: Some(charge) }
    }

    // The charge, which is 0 where the disk is dark.
    pub fn charge(&self) -> u32
        ensures { result ≡ unwrap_or self.now.left 0 }
    {
        self.left.unwrap_or(0)
    }

    pub fn is_powered(&self) -> bool
        ensures { result ≡ is_some self.now.left }
    {
        self.left.is_some()
    }

    // The charge of a disk with power.
    fn live(&self) -> Result<u32, Refusal>
        ensures { result ≡ charged self.now.left }
    {
        self.left.ok_or(Refusal::new(Reason::Dark, 0, 0))
    }

    // The charge, where a disk of `count` blocks lets a call through to block `n`.
    pub fn admit(&self, n: u32, count: u32) -> Result<u32, Refusal>
        ensures { result ≡ admitted n count self.now.left }
    {
        let charge = self.live()?;
        if n >= count {
            return Err(Refusal::new(Reason::OutOfRange, 0, u64::from(n)));
        }
        Ok(charge)
    }

    // Takes one write to block `n` from the charge. Where this is accepted the caller replaces the block; else no block changes.
    pub fn spend(&mut self, n: u32, count: u32) -> Result<(), Refusal>
        ensures answer { result ≡ spent n count self.old.left }
        ensures left { self.new.left ≡ left_after n count self.old.left }
    {
        let charge = self.admit(n, count)?;
        self.left = charge.checked_sub(1);
        self.live()?;
        Ok(())
    }
}
