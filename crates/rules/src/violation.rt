// What a frame can do against the rules, with its number.
ghost use Rattle.std.specs.Prelude.{◌≡◌};
ghost use Rattle.rules.specs.Faults.{number};

#[derive(Clone, Copy, PartialEq, Eq, Debug)]
pub enum Violation {
    Undeclared = 51,
    NoFunction = 52,
    OtherCount = 53,
    OtherArgument = 54,
    OtherOperands = 55,
    OtherAssigned = 56,
    OtherInitial = 57,
    Repeated = 58,
    OtherReturn = 59,
    NoCondition = 60,
}

// The number of a violation.
impl From<Violation> for u8 {
    ghost from_gives = { λ v n. n ≡ number v };

    fn from(violation: Violation) -> Self {
        violation as u8
    }
}
