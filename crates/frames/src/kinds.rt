// The table of kinds, read once a frame.
ghost use Rattle.std.specs.Prelude.{◌≡◌};
ghost use Rattle.syntax.specs.Kinds.{row};

use rows::ROWS;
use syntax::Row;

mod rows;
mod spans;

// The row of a kind, if there is such a kind.
pub(crate) fn row_of(kind: u8) -> Option<Row>
    ensures { result ≡ row kind }
{
    *ROWS.get(usize::from(kind))?
}
