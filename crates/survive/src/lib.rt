// A store that loses power: it comes back with the content of before, or with the whole of the group that was being committed.
#![tactic(auto)]

ghost use Rattle.std.specs.Prelude.{◌≡◌, ℕ};
ghost use Rattle.store.specs.Meaning.{Cells, grouped, finding, sound};
ghost use Rattle.survive.specs.Promise.{Revived, Survived};

use refusal::Refusal;
use store::{Store, Token};

// Gives power back and recovers. Where power goes again in the recovery, it can be called again: nothing is lost.
pub fn revive<S: Store>(store: &mut S, charge: u32) -> Result<(), Refusal>
    ensures { finding (S.means store.old).stage ≡ sound → Revived (S.means store.old) result (S.means store.new) }
{
    store.power(charge);
    store.recover()
}

// Commits the open group with whatever charge is left, and then gives power back and recovers with that charge.
// Answers what the commit answered or, where power goes again, the recovery's refusal.
pub fn survive<S: Store>(
    store: &mut S,
    token: Token,
    charge: u32,
) -> Result<Result<(), Refusal>, Refusal>
    ensures { (w : Cells) (p : ℕ) → (S.means store.old).stage ≡ grouped w p → Survived (S.means store.old) w result (S.means store.new) }
{
    let answer = store.commit(token);
    revive(store, charge)?;
    Ok(answer)
}
