// Why there is no valid book. (Printed by hand and not by a derive of the kit: the report's contract needs the bytes, `output`.)
ghost use Rattle.std.specs.Prelude.{◌≡◌, Some};
ghost use Rattle.driver.specs.Texts.{rejected_text};
ghost use Rattle.driver.specs.declared.rejected.Rejected.TheVariants.{Refused};

use records::Fault;
use std::error::Error;
use std::fmt;
use syntax::Diagnostic;

// The input was too long, or something was refused or faulty.
#[derive(Clone, Copy, PartialEq, Eq, Debug)]
pub enum Rejected {
    TooLong,
    Refused(Fault),
}

impl From<Fault> for Rejected {
    ghost from_gives = { λ fault rejected. rejected ≡ Refused fault };

    fn from(fault: Fault) -> Self {
        Rejected::Refused(fault)
    }
}

impl fmt::Display for Rejected {
    ghost output = { λ rejected. Some (rejected_text rejected) };

    fn fmt<W: fmt::Write>(&self, f: &mut fmt::Formatter<W>) -> fmt::Result {
        match self {
            Rejected::TooLong => f.write_str("too long"),
            Rejected::Refused(fault) => {
                let diagnostic = Diagnostic::from(*fault);
                write!(f, "refused {diagnostic}")
            }
        }
    }
}

impl Error for Rejected {}
