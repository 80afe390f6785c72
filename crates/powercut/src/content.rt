// What the pages of a store hold: a version of each page's bytes, and which version stands.
ghost use Rattle.std.specs.Prelude.{◌≡◌, OnOk};
ghost use Rattle.refusal.specs.declared.Phase.TheVariants.{Open};
ghost use Rattle.store.specs.Meaning.{phase_of, idle};

use refusal::Refusal;
use std::fmt;
use store::{Store, Token};

// What a page has been given: at first, before the commit that is cut, and by it.
#[derive(Clone, Copy, PartialEq, Eq, Debug)]
pub enum Version {
    First,
    Old,
    New,
}

// What stands of a commit: nothing of it, all of it, or anything else.
#[derive(Clone, Copy, PartialEq, Eq, Debug)]
pub enum Stands {
    Old,
    New,
    Torn,
}

impl fmt::Display for Stands {
    fn fmt<W: fmt::Write>(&self, f: &mut fmt::Formatter<W>) -> fmt::Result {
        let word = match self {
            Stands::Old => "old",
            Stands::New => "new",
            Stands::Torn => "TORN",
        };
        write!(f, "{word}")
    }
}

// The bytes of that version of a page; they differ from page to page and from version to version.
fn bytes(version: Version, page: u32) -> [u8; 256] {
    let step = (page % 64) as u8 * 4 + version as u8;
    let mut block = [0; 256];
    let mut next = step;
    for byte in block.iter_mut() {
        *byte = next;
        next = next.wrapping_mul(5).wrapping_add(step);
    }
    block
}

fn put_all<S: Store>(store: &mut S, pages: &[u32], version: Version) -> Result<(), Refusal>
    ensures { phase_of (S.means store.old).stage ≡ Open → OnOk result (phase_of (S.means store.new).stage ≡ Open) }
{
    for page in pages {
        store.put(*page, &bytes(version, *page))?;
    }
    Ok(())
}

// Begins a group and puts that version of each page.
pub fn open_group<S: Store>(
    store: &mut S,
    pages: &[u32],
    version: Version,
) -> Result<Token, Refusal>
    ensures { OnOk result (phase_of (S.means store.new).stage ≡ Open) }
{
    let token = store.begin()?;
    match put_all(store, pages, version) {
        Ok(()) => Ok(token),
        Err(refusal) => {
            store.abort(token)?;
            Err(refusal)
        }
    }
}

// Writes that version of each page, by one group.
pub fn write_group<S: Store>(store: &mut S, pages: &[u32], version: Version) -> Result<(), Refusal>
    ensures { OnOk result ((S.means store.new).stage ≡ idle) }
{
    let token = open_group(store, pages, version)?;
    store.commit(token)
}

// Writes the first version of every page, by a group for each.
pub fn write_first<S: Store>(store: &mut S) -> Result<(), Refusal> {
    for page in 0..store.shape().cells {
        write_group(store, &[page], Version::First)?;
    }
    Ok(())
}

// Whether these pages hold that version, and all others the first.
fn holds<S: Store>(store: &S, pages: &[u32], version: Version) -> Result<bool, Refusal> {
    for page in 0..store.shape().cells {
        let expected = if pages.contains(&page) {
            version
        } else {
            Version::First
        };
        let mut found = [0; 256];
        store.get(page, &mut found)?;
        if found != bytes(expected, page) {
            return Ok(false);
        }
    }
    Ok(true)
}

pub fn look<S: Store>(store: &S, pages: &[u32]) -> Result<Stands, Refusal> {
    if holds(store, pages, Version::Old)? {
        return Ok(Stands::Old);
    }
    if holds(store, pages, Version::New)? {
        return Ok(Stands::New);
    }
    Ok(Stands::Torn)
}
