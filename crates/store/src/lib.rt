// A store: an array of cells that is changed by atomic groups of puts.
#![tactic(auto)]

ghost use Rattle.std.specs.Prelude.{◌≡◌, [], slice_index_or};
ghost use Rattle.store.specs.Meaning.{Content, Formed, Outcome, Filled, padded, working, next, phase_of, phase_bar};
ghost use Rattle.disk.specs.Device.{answer};
ghost use Rattle.store.specs.Meaning as call;

use refusal::{Phase, Reason, Refusal};

// An open group. It is spent by commit or abort, once: it can be neither copied nor let go.
pub struct Token {
    mark: (),
}

impl Token {
    // For a store that opens a group.
    pub fn issue() -> Token {
        Token { mark: () }
    }

    // For a store that ends one.
    pub fn retire(self) {
        let Token { mark: _ } = self;
    }
}

// What does not change: the store's layer in its stack, how many cells of how many bytes, and how many puts a group takes.
#[derive(Clone, Copy, PartialEq, Eq, Debug)]
pub struct Shape {
    pub layer: u32,
    pub cells: u32,
    pub size: u32,
    pub limit: u32,
}

// How a call needs the store to stand: with no group open, with one, in use either way, or with recovery due.
#[derive(Clone, Copy, PartialEq, Eq, Debug)]
pub enum Needs {
    Idle,
    Open,
    Live,
    Due,
}

// The first check of every call of a store: its phase against what the call needs.
pub fn check_phase(phase: Phase, needs: Needs, layer: u32) -> Result<(), Refusal>
    ensures { result ≡ answer (phase_bar needs phase layer) }
{
    let reason = match (needs, phase) {
        (_, Phase::Dark) => return Err(Refusal::new(Reason::Dark, 0, 0)),
        (Needs::Due, Phase::Due) => return Ok(()),
        (_, Phase::Due) => Reason::RecoveryDue,
        (Needs::Idle | Needs::Live, Phase::Idle) => return Ok(()),
        (Needs::Open | Needs::Live, Phase::Open) => return Ok(()),
        (_, Phase::Idle | Phase::Open) => Reason::WrongState,
    };
    Err(Refusal::new(reason, layer, 0))
}

pub trait Store {
    ghost means: { Self → Content };

    fn shape(&self) -> Shape
        ensures { result ≡ (means self.now).shape };

    fn phase(&self) -> Phase
        ensures { result ≡ phase_of (means self.now).stage };

    // Opens a group.
    fn begin(&mut self) -> Result<Token, Refusal>
        ensures outcome { Outcome call.begin (means self.old) result (means self.new) };

    // Fills `out` with cell `n` of the working content and zeros.
    fn get(&self, n: u32, out: &mut [u8; 256]) -> Result<(), Refusal>
        ensures outcome { Outcome (call.get n) (means self.now) result (means self.now) }
        ensures buffer { Filled result (padded (slice_index_or (working (means self.now)) n [])) out.old out.new };

    // Replaces cell `n` of the working content by the first bytes of `v`.
    fn put(&mut self, n: u32, v: &[u8; 256]) -> Result<(), Refusal>
        ensures outcome { Outcome (call.put n v.now) (means self.old) result (means self.new) };

    // Makes the working content durable. Where power goes, it is durable whole or not at all.
    fn commit(&mut self, token: Token) -> Result<(), Refusal>
        ensures outcome { Outcome call.commit (means self.old) result (means self.new) };

    // Drops the working content.
    fn abort(&mut self, token: Token) -> Result<(), Refusal>
        ensures outcome { Outcome call.abort (means self.old) result (means self.new) };

    // Gives the disk below that charge; an open group is dropped and recovery is due. Always accepted.
    fn power(&mut self, charge: u32)
        ensures outcome { means self.new ≡ next (call.power charge) (means self.old) };

    // Makes the store ready from the disk's blocks alone.
    fn recover(&mut self) -> Result<(), Refusal>
        ensures outcome { Outcome call.recover (means self.old) result (means self.new) };

    ghost formed: { (s : Self) → Formed (means s) };
}
