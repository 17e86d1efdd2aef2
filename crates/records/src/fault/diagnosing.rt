// A fault of the book in numbers.
ghost use Rattle.std.specs.Prelude.{◌≡◌};
ghost use Rattle.records.specs.Faults.{diagnosed};

use super::Fault;
use syntax::Diagnostic;

// What stands for the sheet where none is named or faulty.
const NO_SHEET: u8 = 255;

impl From<Fault> for Diagnostic {
    // Its number, layer, sheet and place.
    ghost from_gives = { λ fault d. d ≡ diagnosed fault };

    fn from(fault: Fault) -> Diagnostic {
        let (number, sheet, place) = match fault {
            Fault::Posted(fault, sheet) => {
                return Diagnostic {
                    sheet,
                    ..Diagnostic::from(fault)
                };
            }
            Fault::Broken(violation, sheet, place) => {
                return Diagnostic {
                    number: u8::from(violation),
                    layer: 4,
                    sheet,
                    place,
                };
            }
            Fault::NoSheet(sheet) => (31, sheet, 0),
            Fault::OtherLength(sheet) => (32, sheet.unwrap_or(NO_SHEET), 0),
            Fault::NameTaken(sheet) => (33, sheet, 0),
            Fault::RepeatedParameter(sheet, place) => (34, sheet, place),
            Fault::EmptySheet(sheet) => (35, sheet, 0),
            Fault::NotValid => (36, NO_SHEET, 0),
            Fault::Altered(sheet) => (38, sheet, 0),
            Fault::SmallStore => (39, NO_SHEET, 0),
        };
        Diagnostic {
            number,
            layer: 3,
            sheet,
            place,
        }
    }
}
