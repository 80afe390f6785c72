// Which operations conflict: those about the same number whose kinds a table marks.
ghost use Rattle.std.specs.Prelude.{◌≡◌, ◌<◌, ◌&&◌, ◌==◌};
ghost use Rattle.number.specs.Codes.{kind_number};
ghost use Rattle.level.specs.Conflict.{marks, mark, clash, in_conflict, lock_of, TableSymmetric, AsListed, Symmetric};

use number::Kind;

// What an operation locks until its transaction ends: its kind, and the number that it is about.
#[derive(Clone, Copy, PartialEq, Eq, Debug)]
pub struct Lock {
    pub kind: Kind,
    pub number: u32,
}

// A row and a column for each kind, in the order of their numbers.
const CONFLICTS: [[bool; 7]; 7] = [
    [true, true, true, false, false, false, false],
    [true, true, true, false, false, false, false],
    [true, true, false, false, false, false, false],
    [false, false, false, false, true, false, false],
    [false, false, false, true, false, false, false],
    [false, false, false, false, false, true, true],
    [false, false, false, false, false, true, false],
];

fn mark_at(row: usize, column: usize) -> bool
    requires { (row < 7) × (column < 7) }
    ensures { result ≡ mark row column }
{
    CONFLICTS[row][column]
}

// By the kinds' numbers: a match over pairs of kinds would write 49 of them out.
fn kinds_conflict(a: Kind, b: Kind) -> bool
    ensures { result ≡ clash (kind_number a) (kind_number b) }
{
    mark_at(usize::from(u8::from(a)) - 1, usize::from(u8::from(b)) - 1)
}

// Whether the second waits for the transaction that holds the first.
pub fn conflicts(a: Lock, b: Lock) -> bool
    ensures value { result ≡ in_conflict (lock_of a) (lock_of b) }
    ensures symmetric { Symmetric }
{
    a.number == b.number && kinds_conflict(a.kind, b.kind)
}

// The table. It is its own mirror image, and marks the pairs that the rule lists, and no other.
pub fn conflict_table() -> [[bool; 7]; 7]
    ensures value { result ≡ marks }
    ensures symmetric { TableSymmetric }
    ensures listed { AsListed }
{
    CONFLICTS
}
