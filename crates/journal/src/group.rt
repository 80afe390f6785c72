// The pages that an open group has put, at most six, each once, in the order of its first put.
ghost use Rattle.std.specs.Prelude.{◌≡◌, ◌+◌, ◌<◌, ◌==◌, [], ◌∷◌, ◌++◌, length, IfOk, is_ok, if◌then◌else◌, Ok, MatchOption, nat_eq};
ghost use Rattle.std.specs.List.{position};
ghost use Rattle.std.specs.Option.{option_map};
ghost use Rattle.journal.specs.Groups.{First, Absent, looked_up, remembered};
ghost use Rattle.journal.specs.Record.{member};
ghost use Rattle.journal.specs.Names.{names};

use crate::state::LIMIT;
use std::alloc::{AllocError, Global};
use std::marker::Model;

// As many as a group has puts.
const MOST: usize = LIMIT as usize;

#[derive(Clone, Copy, PartialEq, Eq, Debug)]
pub struct Pending {
    // at most 4,089 pages, so that the number of a page's block cannot wrap
    pub page: u16,
    pub bytes: [u8; 256],
}

// Its memory is taken when it is made: no later call can run out of it. No map: the order of first puts is that of the writes.
#[derive(Drop)]
pub struct Group {
    pub(crate) pages: Vec<Pending>,
}

// A seventh page finds no room.
#[derive(Clone, Copy, PartialEq, Eq, Debug)]
pub struct Full;

impl Model for Group {
    ghost use Rattle.std.specs.Prelude.{◌≤◌, List, vec_len, vec_capacity};
    ghost use Rattle.disk.specs.Runs.{Write};
    ghost use Rattle.journal.specs.Entries.{entries};

    ghost Value = { List Write };

    ghost view = { λ g. entries g.pages.items };

    ghost invariant = { λ g. (6 ≤ vec_capacity g.pages) × (vec_len g.pages ≤ 6) };
}

// Where the first of these with that page is.
fn position_of(pages: &[Pending], page: u16) -> Option<usize>
    ensures { result ≡ position (λ p. p.page == page) pages.now }
{
    pages.iter().position(|p| p.page == page)
}

impl Group {
    pub fn new(heap: Global) -> Result<Group, AllocError>
        ensures { IfOk result (λ g. g ≡ []) }
    {
        Ok(Group {
            pages: Vec::with_capacity(heap, MOST)?,
        })
    }

    pub fn clear(&mut self)
        ensures { self.new ≡ [] }
    {
        self.pages.clear();
    }

    pub fn is_empty(&self) -> bool
        ensures { result ≡ nat_eq (length self.now) 0 }
    {
        self.pages.is_empty()
    }

    fn find(&self, page: u16) -> Option<usize>
        ensures { MatchOption result (Absent page self.now) (λ i. First page self.now i) }
    {
        position_of(&self.pages, page)
    }

    pub fn has(&self, page: u16) -> bool
        ensures { result ≡ member page (names self.now) }
    {
        self.find(page).is_some()
    }

    pub fn get(&self, page: u16) -> Option<&[u8; 256]>
        ensures { option_map (λ x. x.now) result ≡ looked_up page self.now }
    {
        let i = self.find(page)?;
        Some(&self.pages[i].bytes)
    }

    fn replace(&mut self, i: usize, page: u16, bytes: &[u8; 256])
        requires { First page self.old i }
        ensures { self.new ≡ remembered page bytes.now self.old }
    {
        self.pages[i].bytes = *bytes;
    }

    // A page more, last.
    pub fn add(&mut self, page: u16, bytes: &[u8; 256])
        requires { length self.old < 6 }
        ensures { self.new ≡ self.old ++ (page, bytes.now) ∷ [] }
    {
        self.pages.push_reserved(Pending {
            page,
            bytes: *bytes,
        });
    }

    // Puts a page: in its place if it was put before, else last. Where a seventh page finds no room, nothing changes.
    pub fn put(&mut self, page: u16, bytes: &[u8; 256]) -> Result<(), Full>
        ensures pages { self.new ≡ (if is_ok result then remembered page bytes.now self.old else self.old) }
        ensures room { length self.old < 6 → result ≡ Ok tt }
    {
        match self.find(page) {
            Some(i) => self.replace(i, page, bytes),
            None if self.pages.len() < MOST => self.add(page, bytes),
            None => return Err(Full),
        }
        Ok(())
    }
}
