// Calls on the store of variables that it never refuses in a walk.
ghost use Rattle.std.specs.Prelude.{◌≡◌, ◌<◌, false, [], ◌∷◌, length};
ghost use Rattle.levels.specs.Store.{added, below, stands, with_levels};
ghost use Rattle.walk.specs.Machines.{Room};

use levels::store::Declaring;

// A level more.
pub(crate) fn enter<S: Declaring<u8>>(variables: &mut S)
    requires { length (S.Looking.meaning variables.old).levels < 33 }
    ensures { S.Looking.meaning variables.new ≡ with_levels (S.Looking.meaning variables.old) ([] ∷ (S.Looking.meaning variables.old).levels) }
{
    variables.enter().unwrap();
}

// The top level away.
pub(crate) fn leave<S: Declaring<u8>>(variables: &mut S)
    requires { 0 < length (S.Looking.meaning variables.old).levels }
    ensures { S.Looking.meaning variables.new ≡ with_levels (S.Looking.meaning variables.old) (below (S.Looking.meaning variables.old).levels) }
{
    variables.leave().unwrap();
}

// A name more on the top level.
pub(crate) fn add<S: Declaring<u8>>(variables: &mut S, name: u16, t: u8)
    requires room { Room (S.Looking.meaning variables.old) }
    requires fresh { stands (S.Looking.meaning variables.old).levels name ≡ false }
    ensures { S.Looking.meaning variables.new ≡ with_levels (S.Looking.meaning variables.old) (added (S.Looking.meaning variables.old).levels (name, t)) }
{
    variables.declare(name, t).unwrap();
}
