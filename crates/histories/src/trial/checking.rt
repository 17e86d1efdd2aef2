// The checks of a history, over stores of both kinds, and what they are compared with.
use super::Trial;
use crate::counts::{Counts, more};
use crate::judge::judged;
use crate::lent::Lengths;
use crate::plain::{DONE, SHEETS, part};
use crate::stores::{alike, first, picture, soil, stir, unused};
use levels::chains::Chains;
use levels::pile::Pile;
use levels::store::{Declaring, Looking};

// So many entries a store must have room for.
const ROOM: usize = 256;

// What a refused check answers.
fn refused(number: usize) -> [usize; 5] {
    [99, number, 3, 255, 0]
}

impl Trial {
    // How many entries the stores are lent: enough, mostly.
    fn some_room(&mut self) -> usize {
        if self.random.once_in(16) {
            self.random.below(ROOM)
        } else {
            ROOM
        }
    }

    // Checks both books, the one with other kinds of stores than the other.
    pub(crate) fn check(&mut self, counts: &mut Counts) -> bool {
        let mut heads = [unused(1u64); ROOM];
        let mut other_heads = [unused(2u64); ROOM];
        let mut variables = [unused(3u8); ROOM];
        let mut other_variables = [unused(4u8); ROOM];
        if self.random.once_in(2) {
            soil(&mut heads, &mut self.random);
            soil(&mut other_heads, &mut self.random);
            soil(&mut variables, &mut self.random);
            soil(&mut other_variables, &mut self.random);
        }
        let (room, places) = (self.some_room(), self.some_room());
        let heads = first(&mut heads, room);
        let other_heads = first(&mut other_heads, room);
        let variables = first(&mut variables, places);
        let other_variables = first(&mut other_variables, places);
        match self.random.below(4) {
            0 => self.check_over(
                &mut Pile::new(heads),
                &mut Pile::new(variables),
                &mut Chains::new(other_heads),
                &mut Chains::new(other_variables),
                counts,
            ),
            1 => self.check_over(
                &mut Pile::new(heads),
                &mut Chains::new(variables),
                &mut Chains::new(other_heads),
                &mut Pile::new(other_variables),
                counts,
            ),
            2 => self.check_over(
                &mut Chains::new(heads),
                &mut Pile::new(variables),
                &mut Pile::new(other_heads),
                &mut Chains::new(other_variables),
                counts,
            ),
            _ => self.check_over(
                &mut Chains::new(heads),
                &mut Chains::new(variables),
                &mut Pile::new(other_heads),
                &mut Pile::new(other_variables),
                counts,
            ),
        }
    }

    // Checks the left book over the first two stores and the right one over the others, after the same calls on both; whether all is as
    // foretold.
    fn check_over<H: Declaring<u64>, S: Declaring<u8>, G: Declaring<u64>, T: Declaring<u8>>(
        &mut self,
        heads: &mut H,
        variables: &mut S,
        other_heads: &mut G,
        other_variables: &mut T,
        counts: &mut Counts,
    ) -> bool {
        if !stir(heads, other_heads, 9, &mut self.random, counts)
            || !stir(variables, other_variables, 9, &mut self.random, counts)
        {
            return false;
        }
        let (before, before_variables) = (picture(heads), picture(variables));
        let lengths = self.some_lengths();
        let foretold = self.foretell(lengths, heads.capacity(), variables.capacity());
        counts.count_check(foretold);
        let left = self.left.check(lengths, heads, variables);
        let right = self.right.check(lengths, other_heads, other_variables);
        let is_refused = foretold[0] == 99;
        let heads_stay = !is_refused || picture(heads) == before;
        let variables_stay = self.has_walked || picture(variables) == before_variables;
        left == foretold
            && right == foretold
            && heads_stay
            && variables_stay
            && (is_refused || self.heads_stand(heads))
            && alike(heads, other_heads)
            && alike(variables, other_variables)
            && (is_refused || self.compare(foretold, counts))
    }

    // What the check must answer: every due sheet gets the verdict that a book of its own gives it, in rising order, and the others keep theirs.
    fn foretell(&mut self, lengths: Lengths, room: usize, places: usize) -> [usize; 5] {
        self.has_walked = false;
        if lengths != Lengths::Right {
            return refused(32);
        }
        if room < ROOM || places < ROOM {
            return refused(39);
        }
        let mut walked = 0usize;
        for sheet in 0..SHEETS {
            if self.plain.entry(sheet).is_some_and(|e| e.due) {
                let verdict = judged(&mut self.spare, &self.plain, sheet);
                self.plain
                    .walked(sheet, verdict, part(&self.spare.column, sheet));
                self.has_walked = self.has_walked || verdict[0] != 38;
                walked = walked.saturating_add(1);
            }
        }
        let [number, layer, sheet, place] = self.plain.checked();
        [walked, number, layer, sheet, place]
    }

    // Whether the store's top level has the names of the filled sheets and no other.
    fn heads_stand<H: Looking<u64>>(&self, heads: &H) -> bool {
        for name in 0..64 {
            if heads.here(name) != self.plain.has(name) {
                return false;
            }
        }
        true
    }

    // Whether the books agree with a fresh one, where nothing was altered from outside, and the reader of a valid one with its column.
    fn compare(&mut self, answer: [usize; 5], counts: &mut Counts) -> bool {
        if self.plain.clean {
            more(&mut counts.with_fresh);
            if !self.fresh_agrees(answer) {
                return false;
            }
        } else {
            more(&mut counts.with_kept);
        }
        !self.plain.valid || self.types_agree(counts)
    }

    // Whether a fresh book with one put of each filled sheet and one check answers and leaves the same, but that it walks every sheet.
    fn fresh_agrees(&mut self, answer: [usize; 5]) -> bool {
        let _ = self.spare.fresh(Lengths::Right);
        let first = self.random.code(32);
        for more in 0..SHEETS {
            let sheet = first.saturating_add(more) % SHEETS;
            if self.plain.entry(sheet).is_some()
                && self.spare.put_frames(sheet, self.plain.own(sheet)) != DONE
            {
                return false;
            }
        }
        let [walked, number, layer, sheet, place] = self.check_spare();
        walked == self.plain.filled()
            && [number, layer, sheet, place] == [answer[1], answer[2], answer[3], answer[4]]
            && self.spare.holds(&self.plain.frames, &self.plain.column)
    }

    // Checks the spare book, by turns with piles and with chains.
    fn check_spare(&mut self) -> [usize; 5] {
        let mut heads = [unused(0u64); ROOM];
        let mut variables = [unused(0u8); ROOM];
        if self.random.once_in(2) {
            self.spare.check(
                Lengths::Right,
                &mut Pile::new(&mut heads),
                &mut Chains::new(&mut variables),
            )
        } else {
            self.spare.check(
                Lengths::Right,
                &mut Chains::new(&mut heads),
                &mut Pile::new(&mut variables),
            )
        }
    }

    // Whether the readers of both books, and of the fresh one where it was compared, give the types of the column at every place.
    fn types_agree(&self, counts: &mut Counts) -> bool {
        for sheet in 0..SHEETS {
            for place in 0..258 {
                let t = self.plain.type_at(sheet, place);
                if self.left.type_at(sheet, place, Lengths::Right) != t
                    || self.right.type_at(sheet, place, Lengths::Right) != t
                    || (self.plain.clean && self.spare.type_at(sheet, place, Lengths::Right) != t)
                {
                    return false;
                }
                more(&mut counts.types);
            }
        }
        true
    }
}
