// The questions to a type reader.
ghost use Rattle.std.specs.Prelude.{◌≡◌};
ghost use Rattle.history.specs.Working.{asked};
ghost use Rattle.history.specs.Promise.{QuestionPromise};
ghost use Rattle.cpp.specs.Sheet.{expression};
ghost use Rattle.cpp.specs.Cpp.{cpp};
ghost use Rattle.records.specs.Answers.{asked_of};
ghost use Rattle.book.specs.States.{read_state};

use super::Reader;
use crate::sheet::Sheet;
use records::Fault;
use syntax::{Frame, Type};

// Whether the frame ends an expression.
#[tactic(auto, using(std::proofs::lemmas::Bool::Decides::nat_tests), unfolding(cpp::specs::Sheet::expression))]
fn is_expression(frame: Frame) -> bool
    ensures { result ≡ expression frame }
{
    (0x20..=0x2A).contains(&frame.kind) || (0x30..=0x3C).contains(&frame.kind)
}

impl Reader<'_> {
    // The type of the expression that ends at a place of a sheet: the column's number there, if it is one of a type.
    pub fn type_at(&self, sheet: u8, place: usize) -> Result<Option<Type>, Fault>
        ensures result { asked_of result ≡ asked cpp (read_state self.now) sheet place }
        ensures history { QuestionPromise cpp (read_state self.now) sheet place (asked_of result) }
    {
        let sheet = Sheet::try_from(sheet)?;
        let Some(record) = self.table.at(sheet) else {
            return Ok(None);
        };
        if place > record.end as usize {
            return Ok(None);
        }
        let i = 256 * sheet.index() + place;
        if !is_expression(self.frames[i]) {
            return Ok(None);
        }
        Ok(Type::try_from(self.column[i]).ok())
    }
}
