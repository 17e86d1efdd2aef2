// The writing of a report.
ghost use Rattle.std.specs.Prelude.{◌≡◌, ℕ, ◌<◌, List, ◌++◌, length, None, IfOk, OnOk, string_bytes};
ghost use Rattle.history.specs.Working.{working_reading};
ghost use Rattle.records.specs.Answers.{refusal_of};
ghost use Rattle.book.specs.States.{read_state};
ghost use Rattle.driver.specs.Texts.{type_of, type_line, sheet_lines, type_lines, Reported};
ghost use Rattle.driver.specs.Workspaces.{book_of};

use super::Workspace;
use book::Reader;
use records::Fault;
use std::alloc::AllocError;

// Writes the line of a place of a sheet, if an expression ends there.
fn write_place(
    text: &mut String,
    reader: &Reader<'_>,
    sheet: u8,
    place: usize,
) -> Result<(), AllocError>
    requires { sheet < 32 }
    ensures { OnOk result (string_bytes text.new ≡ string_bytes text.old ++ type_line sheet place (type_of (read_state reader.now) sheet place)) }
{
    match reader.type_at(sheet, place).unwrap() {
        Some(t) => {
            let number = u8::from(t);
            writeln!(text, "{sheet} {place} {number}")
        }
        None => Ok(()),
    }
}

// Writes the lines of a sheet, in rising order. (A range here and below: the reader is asked at each place, and has no list of them.)
#[tactic(auto, using(crate::proofs::TextLaws::sheet_none, crate::proofs::TextLaws::sheet_more))]
fn write_sheet(text: &mut String, reader: &Reader<'_>, sheet: u8) -> Result<(), AllocError>
    requires { sheet < 32 }
    ensures { OnOk result (string_bytes text.new ≡ string_bytes text.old ++ sheet_lines (type_of (read_state reader.now)) sheet 256) }
{
    for place in 0..256 {
        write_place(text, reader, sheet, place)?;
    }
    Ok(())
}

impl Workspace {
    // A reader of the types of a valid book.
    #[tactic(auto, using(crate::proofs::ReadLaws::lent_types, crate::proofs::ReadLaws::own_reading))]
    fn reader(&self) -> Result<Reader<'_>, Fault>
        ensures result { refusal_of result ≡ working_reading (book_of self.now) 8192 8192 }
        ensures types { IfOk result (λ q. type_of (read_state q) ≡ type_of (book_of self.now)) }
    {
        self.book.reader(&self.frames, &self.column)
    }

    // Writes the types of a valid book, sheet by sheet.
    #[tactic(auto, using(crate::proofs::TextLaws::types_none, crate::proofs::TextLaws::types_more))]
    fn write_types(&self, text: &mut String) -> Result<(), AllocError>
        requires { working_reading (book_of self.now) 8192 8192 ≡ None }
        ensures { OnOk result (string_bytes text.new ≡ string_bytes text.old ++ type_lines (type_of (book_of self.now)) 32) }
    {
        let reader = self.reader().unwrap();
        for sheet in 0..32 {
            write_sheet(text, &reader, sheet)?;
        }
        Ok(())
    }

    // Writes what comes of an input: why it is rejected, or how many sheets were walked and the type of each expression.
    pub(crate) fn write_report(&mut self, input: &[u8], text: &mut String) -> Result<(), AllocError>
        ensures { OnOk result ((bs : List ℕ) × (string_bytes text.new ≡ string_bytes text.old ++ bs) × Reported input.now 8192 8192 256 256 bs) }
    {
        match self.run(input) {
            Err(rejected) => writeln!(text, "{rejected}"),
            Ok(walked) => {
                writeln!(text, "valid {walked}")?;
                self.write_types(text)
            }
        }
    }
}
