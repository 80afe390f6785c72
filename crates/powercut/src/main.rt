// Cuts power at every write of a commit, and at every write of the recovery after it, and shows what stands.
#![tactic(auto)]

ghost use Rattle.std.specs.Prelude.{◌≤◌};

use case::{Case, Fault, Trial, cut_commit, cut_recovery};
use disk::banked::BankedDisk;
use disk::plain::PlainDisk;
use tally::Tally;

mod case;
mod content;
mod tally;

// One case: a line for its commit, and then its recovery is cut at each write.
fn show<D: Trial>(rt: &HostRuntime, case: Case, tally: &mut Tally) -> Result<(), Fault> {
    let end = cut_commit::<D>(rt.alloc(), case)?;
    tally.count(end);
    println!(rt; "{} {case} {end}", D::NAME)?;
    for charge in 0..=case.pages {
        let recovery = cut_recovery::<D>(rt.alloc(), case, charge)?;
        tally.count_recovery(recovery, end.stands);
    }
    Ok(())
}

// A commit of so many pages, with charge for none to all of its 2 * pages + 2 writes.
fn show_charges<D: Trial>(rt: &HostRuntime, pages: u32, tally: &mut Tally) -> Result<(), Fault>
    requires { pages ≤ 6 }
{
    for charge in 0..=2 * pages + 2 {
        show::<D>(rt, Case::new(pages, charge), tally)?;
    }
    Ok(())
}

// A call of its own, so that the room for printing a fault is not held under it: the program then runs in 8 KiB of stack.
#[inline(never)]
fn show_disk<D: Trial>(rt: &HostRuntime, tally: &mut Tally) -> Result<(), Fault> {
    for pages in 1..=6 {
        show_charges::<D>(rt, pages, tally)?;
    }
    Ok(())
}

fn main(rt: HostRuntime) -> Result<(), Fault> {
    let mut tally = Tally::default();
    show_disk::<PlainDisk>(&rt, &mut tally)?;
    show_disk::<BankedDisk>(&rt, &mut tally)?;
    println!(rt; "{tally}")?;
    Ok(())
}
