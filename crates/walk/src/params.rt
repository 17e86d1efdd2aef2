// The parameters of a sheet: its head packed in a number, and the search for a name that stands twice.
ghost use Rattle.std.specs.Prelude.{◌≡◌};
ghost use Rattle.syntax.specs.Law.{OfTree};
ghost use Rattle.frames.specs.Sheets.{frames_of};
ghost use Rattle.rules.specs.Programs.{head_of as definition_head};
ghost use Rattle.walk.specs.Params.{param_frames, repeated_param, Placed};
ghost use Rattle.walk.specs.Tied.{packed_head};
ghost use Rattle.walk.specs.Examined.{sheet_packed};

use frames::Formed;
use heads::{bare, push};
use levels::search::newest;
use syntax::Frame;

// The PARAM frames of a formed sheet.
#[tactic(auto, using(syntax::proofs::Heads::params_end))]
fn parameters(sheet: &Formed) -> &[Frame]
    ensures { result.now ≡ param_frames (frames_of sheet.now) }
{
    let last = sheet.param_count();
    &sheet.frames()[1..=last]
}

// The head of a formed sheet in a number.
pub fn head_of(sheet: &Formed) -> u64
    ensures result { result ≡ sheet_packed (frames_of sheet.now) }
    ensures tree { OfTree (frames_of sheet.now) (λ d. packed_head (definition_head d)) result }
{
    let mut head = bare(sheet.frames()[0].t).unwrap();
    for parameter in parameters(sheet) {
        head = push(head, parameter.t).unwrap();
    }
    head
}

// The place of the first parameter of a formed sheet whose name an earlier one has.
pub fn repeated_parameter(sheet: &Formed) -> Option<usize>
    ensures result { result ≡ repeated_param (frames_of sheet.now) }
    ensures bound { Placed (frames_of sheet.now) result }
{
    let parameters = parameters(sheet);
    for (i, parameter) in parameters.iter().enumerate() {
        if newest(&parameters[..i], parameter.name).is_some() {
            return Some(i + 1);
        }
    }
    None
}
