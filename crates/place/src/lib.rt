// Places of 64 bytes: the unit in which every level reads and writes the store below, whatever the size of its cells.
#![tactic(auto)]

ghost use Rattle.std.specs.Prelude.{◌≡◌, ℕ, ◌+◌, ◌<◌, ◌≤◌, List, [], length, take, drop, Some, Ok, Err, slice_index_or, slice_set};
ghost use Rattle.disk.specs.Device.{answer};
ghost use Rattle.disk.specs.Runs.{stored, Inside};
ghost use Rattle.store.specs.Meaning.{Content, idle, bar, begin, get, working, Filled};
ghost use Rattle.place.specs.Places.{fold, places, cell_of, start_of, replaced};
ghost use Rattle.place.specs.Writes.{shown, listed, Ready, Ended, Begun, Tried, Closed};

use refusal::Refusal;
use store::{Store, Token};

// A value that fills a place.
pub trait Fill {
    ghost bytes: { Self → List ℕ };

    fn fill(&self, out: &mut [u8])
        requires { length out.old ≡ 64 }
        ensures { out.new ≡ bytes self.now };
}

// A place and what it is to hold.
#[derive(Debug, PartialEq, Eq, Drop)]
pub struct PlaceWrite<C> {
    pub place: u32,
    pub content: C,
}

// How many places a cell has. At any other size it is one, so that no place passes the end of the buffer.
fn per_cell(size: u32) -> u32
    ensures { result ≡ fold size }
{
    if size == 256 { 4 } else { 1 }
}

// Where a place lies: its cell, and the byte of the cell at which it begins.
#[derive(Clone, Copy, Debug, PartialEq, Eq)]
struct Spot {
    cell: u32,
    start: usize,
    ghost fits: { start ≤ 192 },
}

impl Spot {
    // The cell number is checked by the store, which refuses one beyond its last.
    fn of<S: Store>(s: &S, place: u32) -> Spot
        ensures cell { result.cell ≡ cell_of (S.means s.now).shape.size place }
        ensures start { result.start ≡ start_of (S.means s.now).shape.size place }
    {
        let fold = per_cell(s.shape().size);
        Spot {
            cell: place / fold,
            start: 64 * (place % fold) as usize,
        }
    }

    fn read(self, cell: &[u8; 256], out: &mut [u8; 64])
        ensures { out.new ≡ take 64 (drop self.start cell.now) }
    {
        out.copy_from_slice(&cell[self.start..self.start + 64]);
    }

    // The value writes into the cell itself: its part of the buffer is lent on.
    fn fill<C: Fill>(self, cell: &mut [u8; 256], content: &C)
        ensures { cell.new ≡ replaced self.start (C.bytes content.now) cell.old }
    {
        content.fill(&mut cell[self.start..self.start + 64]);
    }
}

// How many places a store has: fewer than 2^32, so the product does not reach the bound.
pub fn count<S: Store>(s: &S) -> u32
    ensures { result ≡ length (shown (S.means s.now)) }
{
    let shape = s.shape();
    shape.cells.saturating_mul(per_cell(shape.size))
}

// Fills `out` with place `p`; where the store refuses the read, `out` stays as it was.
pub fn read_place<S: Store>(s: &S, p: u32, out: &mut [u8; 64]) -> Result<(), Refusal>
    ensures answers { result ≡ answer (bar (get (cell_of (S.means s.now).shape.size p)) (S.means s.now)) }
    ensures buffer { Filled result (slice_index_or (places (S.means s.now).shape.size (working (S.means s.now))) p []) out.old out.new }
    ensures granted { (S.means s.now).stage ≡ idle → p < length (shown (S.means s.now)) → (result ≡ Ok tt) × (out.new ≡ slice_index_or (shown (S.means s.now)) p []) }
{
    let spot = Spot::of(s, p);
    let mut cell = [0u8; 256];
    s.get(spot.cell, &mut cell)?;
    spot.read(&cell, out);
    Ok(())
}

// One write of an open group: its cell is read, changed and put back.
fn put_place<S: Store, C: Fill>(s: &mut S, write: &PlaceWrite<C>) -> Result<(), Refusal>
    ensures { (m : Content) (ps : List (List ℕ)) (k : ℕ) → Begun m ps k (S.means s.old) → write.now.place < length ps → k < m.shape.limit → Tried m (slice_set ps write.now.place (C.bytes write.now.content)) (k + 1) result (S.means s.new) }
{
    let spot = Spot::of(s, write.place);
    let mut cell = [0u8; 256];
    s.get(spot.cell, &mut cell)?;
    spot.fill(&mut cell, &write.content);
    s.put(spot.cell, &cell)
}

fn put_all<S: Store, C: Fill>(s: &mut S, writes: &[PlaceWrite<C>]) -> Result<(), Refusal>
    ensures { (m : Content) → Begun m (shown m) 0 (S.means s.old) → Inside (length (shown m)) (listed C.bytes writes.now) → length writes.now ≤ m.shape.limit → Tried m (stored (listed C.bytes writes.now) (shown m)) (length writes.now) result (S.means s.new) }
{
    for write in writes {
        put_place(s, write)?;
    }
    Ok(())
}

// Ends a group by how its puts went.
fn end_group<S: Store>(s: &mut S, token: Token, tried: Result<(), Refusal>) -> Result<(), Refusal>
    ensures { Closed tried (S.means s.old) result (S.means s.new) }
{
    match tried {
        Ok(()) => s.commit(token),
        Err(e) => {
            let _ = s.abort(token);
            Err(e)
        }
    }
}

// Writes all places as one group, in order: all of it or, where power goes, all or nothing.
pub fn write_group<S: Store, C: Fill>(s: &mut S, writes: &[PlaceWrite<C>]) -> Result<(), Refusal>
    ensures outcome { Ready (listed C.bytes writes.now) (S.means s.old) → Ended (stored (listed C.bytes writes.now) (shown (S.means s.old))) (S.means s.old) result (S.means s.new) }
    ensures barred { (e : Refusal) → bar begin (S.means s.old) ≡ Some e → (result ≡ Err e) × (S.means s.new ≡ S.means s.old) }
{
    let token = s.begin()?;
    let tried = put_all(s, writes);
    end_group(s, token, tried)
}
