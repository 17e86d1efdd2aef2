// Why a store refuses a call, and the number by which hosts print it.
ghost use Rattle.std.specs.Prelude.{◌≡◌};
ghost use Rattle.levels.specs.Refusals.{number};

#[derive(Clone, Copy, PartialEq, Eq, Debug)]
pub enum Refusal {
    // enter: 33 levels stand
    TooDeep,
    // leave: no level stands
    NoneToLeave,
    // declare: no level stands
    NoLevel,
    // declare: the top level has the name
    Repeated,
    // declare: as many entries stand as the store has room for
    Full,
}

impl From<Refusal> for u8 {
    ghost from_gives = { λ refusal result. result ≡ number refusal };

    fn from(refusal: Refusal) -> u8 {
        match refusal {
            Refusal::TooDeep => 41,
            Refusal::NoneToLeave => 42,
            Refusal::NoLevel => 43,
            Refusal::Repeated => 44,
            Refusal::Full => 45,
        }
    }
}
