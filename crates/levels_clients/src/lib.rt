// Code above a store of names, proved once for every store.

#![tactic(auto)]

ghost use Rattle.std.specs.Prelude.{◌≡◌, ◌≤◌, Some, Ok, ◌≢◌};
ghost use Rattle.levels.specs.Store.{looked, or_else};
ghost use Rattle.levels_clients.specs.Two.{both, two_answer, two_left};

use levels::refusal::Refusal;
use levels::store::{Declaring, Looking};

// Two names on the one level of a wiped store, and the first looked up again: what it answers and leaves for every store and all names, and where there is room and the names differ.
pub fn declare_two<V: Copy, S: Declaring<V>>(
    s: &mut S,
    a: u16,
    x: V,
    b: u16,
    y: V,
) -> Result<Option<V>, Refusal>
    ensures result { result ≡ two_answer (S.Looking.meaning s.old) a x b y }
    ensures leaves { S.Looking.meaning s.new ≡ two_left (S.Looking.meaning s.old) a x b y }
    ensures room_result { 2 ≤ (S.Looking.meaning s.old).capacity → (a ≢ b) → result ≡ Ok (Some x) }
    ensures room_leaves { 2 ≤ (S.Looking.meaning s.old).capacity → (a ≢ b) → S.Looking.meaning s.new ≡ both (S.Looking.meaning s.old) a x b y }
{
    s.wipe();
    s.enter()?;
    s.declare(a, x)?;
    s.declare(b, y)?;
    Ok(s.look(a))
}

// The value of a name, or else of another; it only looks.
pub fn look_either<V, S: Looking<V>>(s: &S, a: u16, b: u16) -> Option<V>
    ensures result { result ≡ or_else (looked (S.Looking.meaning s.now).levels a) (looked (S.Looking.meaning s.now).levels b) }
{
    s.look(a).or_else(|| s.look(b))
}
