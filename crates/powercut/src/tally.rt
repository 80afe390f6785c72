// How many commits and recoveries ended which way.
use crate::case::{End, Recovery};
use crate::content::Stands;
use std::fmt;

#[derive(Clone, Copy, PartialEq, Eq, Debug, Default)]
pub struct Tally {
    granted: u32,
    cut: u32,
    old: u32,
    new: u32,
    torn: u32,
    recoveries: u32,
    recoveries_cut: u32,
    changed: u32,
}

fn raise(count: &mut u32) {
    *count = count.saturating_add(1);
}

impl Tally {
    pub fn count(&mut self, end: End) {
        match end.answer {
            Ok(()) => raise(&mut self.granted),
            Err(_) => raise(&mut self.cut),
        }
        match end.stands {
            Stands::Old => raise(&mut self.old),
            Stands::New => raise(&mut self.new),
            Stands::Torn => raise(&mut self.torn),
        }
    }

    // Counts a recovery of what stood so after one that was not cut.
    pub fn count_recovery(&mut self, recovery: Recovery, stood: Stands) {
        raise(&mut self.recoveries);
        if recovery.cut {
            raise(&mut self.recoveries_cut);
        }
        if recovery.stands != stood {
            raise(&mut self.changed);
        }
    }
}

impl fmt::Display for Tally {
    fn fmt<W: fmt::Write>(&self, f: &mut fmt::Formatter<W>) -> fmt::Result {
        write!(
            f,
            "{} commits: {} granted, {} cut; ",
            self.granted.saturating_add(self.cut),
            self.granted,
            self.cut
        )?;
        write!(
            f,
            "{} old, {} new, {} torn; ",
            self.old, self.new, self.torn
        )?;
        write!(
            f,
            "{} recoveries: {} cut, {} with other content",
            self.recoveries, self.recoveries_cut, self.changed
        )
    }
}
