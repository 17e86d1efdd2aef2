// What a formed sheet tells.
ghost use Rattle.std.specs.Prelude.{◌≡◌, ◌≤◌, length};
ghost use Rattle.std.specs.List.{slice_get};
ghost use Rattle.syntax.specs.Writing.{type_code};
ghost use Rattle.syntax.specs.Law.{HasTree, OfTree};
ghost use Rattle.syntax.specs.Heads.{head, ParamAt};
ghost use Rattle.frames.specs.Sheets.{frames_of, sheet_of};

use super::Formed;
use syntax::{Frame, Parameter, Type};

impl Formed {
    // The count of frames.
    #[tactic(auto, using(crate::proofs::Readings::count_bound))]
    pub fn count(&self) -> usize
        ensures result { result ≡ length (frames_of self.now) }
        ensures bound { (2 ≤ result) × (result ≤ 256) }
    {
        self.frames().len()
    }

    // The sheet's frames: the writing of a tree.
    #[tactic(auto, using(syntax::proofs::Law::sheet_tree))]
    pub fn frames(&self) -> &[Frame]
        ensures result { result.now ≡ frames_of self.now }
        ensures tree { HasTree result.now }
    {
        &self.frames[..self.count]
    }

    // The sheet's frames, and blank ones up to 256.
    pub fn sheet(&self) -> &[Frame]
        ensures result { result.now ≡ sheet_of self.now }
        ensures bound { length result.now ≡ 256 }
    {
        &self.frames[..]
    }

    // The name of the definition.
    #[tactic(auto, using(crate::proofs::Readings::name_tree))]
    pub fn name(&self) -> u16
        ensures result { result ≡ (head (frames_of self.now)).name }
        ensures tree { OfTree (frames_of self.now) (λ d. d.name) result }
    {
        self.frames[0].name
    }

    // The type that it returns.
    #[tactic(auto, using(crate::proofs::Readings::returns_some, crate::proofs::Readings::returns_tree, syntax::proofs::Types::decodes_type))]
    pub fn returns(&self) -> Type
        ensures result { type_code result ≡ (head (frames_of self.now)).t }
        ensures tree { OfTree (frames_of self.now) (λ d. d.returns) result }
    {
        Type::try_from(self.frames[0].t).unwrap()
    }

    // How many parameters it has.
    #[tactic(auto, using(crate::proofs::Readings::count_few, crate::proofs::Readings::count_tree))]
    pub fn param_count(&self) -> usize
        ensures result { result ≡ (head (frames_of self.now)).load }
        ensures bound { result ≤ 16 }
        ensures tree { OfTree (frames_of self.now) (λ d. length d.params) result }
    {
        self.frames[0].load as usize
    }

    // The parameter at that place, if there are so many.
    #[tactic(auto, using(crate::proofs::Readings::param_some, crate::proofs::Readings::param_read, crate::proofs::Readings::param_read_tree, syntax::proofs::Heads::param_past))]
    pub fn param(&self, i: usize) -> Option<Parameter>
        ensures result { ParamAt (frames_of self.now) i result }
        ensures tree { OfTree (frames_of self.now) (λ d. slice_get d.params i) result }
    {
        if i >= self.param_count() {
            return None;
        }
        let frame = self.frames[i + 1];
        let t = Type::try_from(frame.t).unwrap();
        Some(Parameter {
            t,
            name: frame.name,
        })
    }
}
