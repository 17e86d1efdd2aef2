// A fault in numbers.
ghost use Rattle.std.specs.Prelude.{◌≡◌, Some};
ghost use Rattle.syntax.specs.Faults.{diagnosed, diagnostic_text};

use super::{Diagnostic, Fault};
use std::fmt;

impl From<Fault> for Diagnostic {
    ghost from_gives = { λ fault diagnostic. diagnostic ≡ diagnosed fault };

    // The fault's number, layer, sheet and place; it names no sheet.
    fn from(fault: Fault) -> Self {
        let (number, layer, place) = match fault {
            Fault::BadLine(k) => (11, 1, k),
            Fault::FramesFull(k) => (12, 1, k),
            Fault::TextShort => (13, 1, 0),
            Fault::TooLong => (20, 2, 256),
            Fault::UnknownKind(k) => (21, 2, k),
            Fault::BadField(k) => (22, 2, k),
            Fault::NotAllowed(k) => (23, 2, k),
            Fault::TooDeep(k) => (24, 2, k),
            Fault::NoEnd(k) => (25, 2, k),
            Fault::AfterEnd(k) => (26, 2, k),
        };
        Diagnostic {
            number,
            layer,
            sheet: 255,
            place,
        }
    }
}

impl fmt::Display for Diagnostic {
    ghost output = { λ diagnostic. Some (diagnostic_text diagnostic) };

    // The four numbers in decimal, with a blank between two.
    fn fmt<W: fmt::Write>(&self, f: &mut fmt::Formatter<W>) -> fmt::Result {
        write!(
            f,
            "{} {} {} {}",
            self.number, self.layer, self.sheet, self.place
        )
    }
}
