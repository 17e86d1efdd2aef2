// An input cut into pieces, one a sheet.
ghost use Rattle.std.specs.Prelude.{◌≡◌, ℕ, ◌<◌, ◌≤◌, List, [], ◌∷◌, ◌++◌, length, take, drop, Some, None};
ghost use Rattle.std.specs.Iterator.{YieldsFirstRef, item_count};
ghost use Rattle.input.specs.Pieces.{ends_sheet, pieces, Cutting};

use std::marker::Model;

// Whether the line begins with the digits 0 and 3.
fn is_end(line: &[u8]) -> bool
    ensures { result ≡ ends_sheet line.now }
{
    line.starts_with(b"03")
}

// How long the first piece is; there is one.
fn piece_length(input: &[u8]) -> usize
    requires { 0 < length input.now }
    ensures bound { (0 < result) × (result ≤ length input.now) }
    ensures result { pieces input.now ≡ take result input.now ∷ pieces (drop result input.now) }
{
    let mut length = 0;
    for line in input.split_inclusive(|b| *b == b'\n') {
        if is_end(line) {
            return length + line.len();
        }
        length += line.len();
    }
    length
}

// The first piece of the input and what is left of it, or none where it has no bytes.
pub fn cut(input: &[u8]) -> Option<(&[u8], &[u8])>
    ensures result { elim result [ Some q ↦ (pieces input.now ≡ q.0.now ∷ pieces q.1.now) × (input.now ≡ q.0.now ++ q.1.now) × (length q.1.now < length input.now) | None ↦ input.now ≡ [] ] }
    ensures law { Cutting }
{
    if input.is_empty() {
        return None;
    }
    let (piece, rest) = input.split_at(piece_length(input));
    Some((piece, rest))
}

// The pieces of an input that are left, one after the other.
#[derive(Drop)]
pub struct Pieces<'a> {
    rest: &'a [u8],
}

impl<'a> Model for Pieces<'a> {
    ghost Value = { List (List ℕ) };

    ghost view = { λ p. pieces p.rest.now };
}

impl<'a> Pieces<'a> {
    // All pieces of the input.
    #[tactic(auto, using(crate::proofs::CutLaw::pieces_few))]
    pub fn new(input: &'a [u8]) -> Self
        ensures all { result ≡ pieces input.now }
        ensures few { length result ≤ length input.now }
    {
        Pieces { rest: input }
    }
}

impl<'a> Iterator for Pieces<'a> {
    type Item = &'a [u8];

    ghost next_gives = { YieldsFirstRef (λ p. p) };

    ghost remaining = { item_count (λ p. p) };

    #[tactic(auto, using(crate::proofs::PieceLaws::no_pieces))]
    fn next(&mut self) -> Option<&'a [u8]> {
        let (piece, rest) = cut(self.rest)?;
        self.rest = rest;
        Some(piece)
    }
}
