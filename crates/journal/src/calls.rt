// The journal as a store.
ghost use Rattle.std.specs.Prelude.{◌≡◌, ◌<◌, ◌≤◌, MatchResult};
ghost use Rattle.refusal.specs.declared.Reason.TheVariants.{OutOfRange};
ghost use Rattle.refusal.specs.Refusals.{refusal};
ghost use Rattle.disk.specs.Device.{powered_up};
ghost use Rattle.store.specs.Meaning.{Outcome, next, phase_of};
ghost use Rattle.store.specs.Meaning as call;
ghost use Rattle.journal.specs.Layout.{cells_of};
ghost use Rattle.journal.specs.Record.{Exactly};
ghost use Rattle.journal.specs.Meaning.{meaning, committed, recovered, Lawfully, pended, puts_of};
ghost use Rattle.std.specs.Option.{option_map};
ghost use Rattle.journal.specs.declared.state.Mode.TheVariants.{Due};
ghost use Rattle.journal.specs.Stages.{journal_formed};

use crate::group::Group;
use crate::restore::{pages_of, restore};
use crate::state::{FIRST_PAGE, Journal, LAYER, LIMIT, Mode};
use crate::writes::{commit_parts, write_parts};
use disk::Disk;
use refusal::{Phase, Reason, Refusal};
use std::alloc::Global;
use store::{Needs, Shape, Store, Token, check_phase};

impl<D: Disk> Journal<D> {
    // A journal over that disk, for which recovery is due. Where there is no memory for its group, the disk comes back.
    pub fn new(heap: Global, disk: D) -> Result<Journal<D>, D>
        ensures { MatchResult result (λ j. (j.disk ≡ disk) × (j.mode ≡ Due)) (λ d. d ≡ disk) }
    {
        match Group::new(heap) {
            Ok(group) => Ok(Journal {
                disk,
                mode: Mode::Due,
                group,
            }),
            Err(_) => Err(disk),
        }
    }

    pub fn disk(&self) -> &D
        ensures { result.now ≡ self.now.disk }
    {
        &self.disk
    }

    // Gives the disk back.
    pub fn into_disk(self) -> D
        ensures { result ≡ self.disk }
    {
        let Journal {
            disk,
            mode: _,
            group,
        } = self;
        drop(group);
        disk
    }

    fn cells(&self) -> u32
        ensures { result ≡ cells_of (D.means self.now.disk).blocks }
    {
        pages_of(&self.disk)
    }

    // The page of that number, if there is one.
    fn page(&self, n: u32) -> Result<u16, Refusal>
        ensures { MatchResult result (λ p. (p ≡ n) × (n < cells_of (D.means self.now.disk).blocks)) (λ e. (e ≡ refusal OutOfRange 1 n) × (cells_of (D.means self.now.disk).blocks ≤ n)) }
    {
        if n >= self.cells() {
            return Err(Refusal::new(Reason::OutOfRange, LAYER, u64::from(n)));
        }
        Ok(n as u16)
    }

    // The puts of the open group so far.
    fn puts(&self) -> u32
        ensures { result ≡ puts_of self.now.mode }
    {
        match self.mode {
            Mode::Open { puts } => puts,
            Mode::Due | Mode::Idle => 0,
        }
    }

    // What the open group has put to a page.
    fn pended(&self, page: u16) -> Option<&[u8; 256]>
        ensures { option_map (λ x. x.now) result ≡ pended self.now.mode page self.now.group }
    {
        match self.mode {
            Mode::Open { .. } => self.group.get(page),
            Mode::Due | Mode::Idle => None,
        }
    }

    // The disk itself knows whether it is dark.
    fn standing(&self) -> Phase
        ensures { result ≡ phase_of (⟦<Journal<D> as Store>⟧.means self.now).stage }
    {
        match (self.disk.is_powered(), self.mode) {
            (false, _) => Phase::Dark,
            (true, Mode::Due) => Phase::Due,
            (true, Mode::Idle) => Phase::Idle,
            (true, Mode::Open { .. }) => Phase::Open,
        }
    }
}

impl<D: Disk> Store for Journal<D> {
    ghost means = { λ j. meaning (D.Disk.means j.disk) j.mode j.group };

    ghost formed = { λ j.
        let d = D.Disk.means j.disk in
        let f = D.Disk.formed j.disk in
        journal_formed d.powered d.blocks j.mode j.group f.least f.most f.even j.whole };

    fn shape(&self) -> Shape {
        Shape {
            layer: LAYER,
            cells: self.cells(),
            size: 256,
            limit: LIMIT,
        }
    }

    fn phase(&self) -> Phase {
        self.standing()
    }

    fn begin(&mut self) -> Result<Token, Refusal>
        ensures outcome { Outcome call.begin (⟦<Journal<D> as Store>⟧.means self.old) result (⟦<Journal<D> as Store>⟧.means self.new) }
        ensures disk { D.means self.new.disk ≡ D.means self.old.disk }
    {
        check_phase(self.standing(), Needs::Idle, LAYER)?;
        self.group.clear();
        self.mode = Mode::Open { puts: 0 };
        Ok(Token::issue())
    }

    fn get(&self, n: u32, out: &mut [u8; 256]) -> Result<(), Refusal> {
        check_phase(self.standing(), Needs::Live, LAYER)?;
        let page = self.page(n)?;
        match self.pended(page) {
            Some(bytes) => {
                *out = *bytes;
                Ok(())
            }
            None => self.disk.read(FIRST_PAGE + n, out),
        }
    }

    fn put(&mut self, n: u32, v: &[u8; 256]) -> Result<(), Refusal>
        ensures outcome { Outcome (call.put n v.now) (⟦<Journal<D> as Store>⟧.means self.old) result (⟦<Journal<D> as Store>⟧.means self.new) }
        ensures disk { D.means self.new.disk ≡ D.means self.old.disk }
    {
        check_phase(self.standing(), Needs::Open, LAYER)?;
        let page = self.page(n)?;
        let puts = self.puts();
        if puts >= LIMIT {
            return Err(Refusal::new(Reason::LimitReached, LAYER, u64::from(LIMIT)));
        }
        // no more pages than puts, so the group has room
        self.group.put(page, v).unwrap();
        self.mode = Mode::Open { puts: puts + 1 };
        Ok(())
    }

    fn commit(&mut self, token: Token) -> Result<(), Refusal>
        ensures outcome { Outcome call.commit (⟦<Journal<D> as Store>⟧.means self.old) result (⟦<Journal<D> as Store>⟧.means self.new) }
        ensures disk { D.means self.new.disk ≡ committed (D.means self.old.disk).powered self.old.mode self.old.group (D.means self.old.disk) }
        ensures by_charge { Lawfully (D.means self.old.disk).powered self.old.mode self.old.group (D.means self.old.disk) result (D.means self.new.disk) }
    {
        token.retire();
        check_phase(self.standing(), Needs::Open, LAYER)?;
        write_parts(&mut self.disk, &commit_parts(), &self.group)?;
        self.mode = Mode::Idle;
        Ok(())
    }

    fn abort(&mut self, token: Token) -> Result<(), Refusal>
        ensures outcome { Outcome call.abort (⟦<Journal<D> as Store>⟧.means self.old) result (⟦<Journal<D> as Store>⟧.means self.new) }
        ensures disk { D.means self.new.disk ≡ D.means self.old.disk }
    {
        token.retire();
        check_phase(self.standing(), Needs::Open, LAYER)?;
        self.mode = Mode::Idle;
        Ok(())
    }

    fn power(&mut self, charge: u32)
        ensures outcome { ⟦<Journal<D> as Store>⟧.means self.new ≡ next (call.power charge) (⟦<Journal<D> as Store>⟧.means self.old) }
        ensures disk { D.means self.new.disk ≡ powered_up charge (D.means self.old.disk) }
    {
        self.disk.power(charge);
        self.mode = Mode::Due;
    }

    fn recover(&mut self) -> Result<(), Refusal>
        ensures outcome { Outcome call.recover (⟦<Journal<D> as Store>⟧.means self.old) result (⟦<Journal<D> as Store>⟧.means self.new) }
        ensures disk { D.means self.new.disk ≡ recovered (D.means self.old.disk).powered self.old.mode (D.means self.old.disk) }
        ensures exact { Exactly (cells_of (D.means self.old.disk).blocks) }
    {
        check_phase(self.standing(), Needs::Due, LAYER)?;
        restore(&mut self.disk, &mut self.group)?;
        self.mode = Mode::Idle;
        Ok(())
    }
}
