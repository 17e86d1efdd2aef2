// The walk of the sheets that are due.
ghost use Rattle.std.specs.Prelude.{◌≡◌, ℕ, ◌<◌, ◌≤◌, None, true, false, [], ◌∷◌, slice_index_or};
ghost use Rattle.levels.specs.Store.{with_levels};
ghost use Rattle.history.specs.Words.{lowest, count_below, map_some};
ghost use Rattle.history.specs.Language.{Heads, heads_of};
ghost use Rattle.history.specs.Areas.{part, rewritten};
ghost use Rattle.history.specs.Working.{record_at, due_flag, kept_fault, checked_record, checked_column};
ghost use Rattle.cpp.specs.Cpp.{cpp};
ghost use Rattle.records.specs.Faults.{told};
ghost use Rattle.records.specs.Records.{record_of, signatures_of, state_of};
ghost use Rattle.records.specs.Stores.{heads_below, variables_left};
ghost use Rattle.records.specs.Walks.{Held, SheetWalked};

use super::Table;
use crate::areas::{Column, Frames, own_frames};
use crate::sheet::Sheet;
use levels::store::{Declaring, Looking};
use records::{Fault, Record, Signature};
use walk::{Verdict, examine};

// Walks one sheet: its types into its part of the column, or the first violation, or that its frames were altered. (A struct of the
// areas and the stores would be no plainer: both functions would say of each `&mut` in it that it stays the same. So the capacity of a lent
// store is a `requires` here and below.)
fn walk_sheet<H: Looking<u64>, S: Declaring<u8>>(
    row: Record,
    sheet: Sheet,
    frames: &Frames,
    column: &mut Column,
    heads: &H,
    variables: &mut S,
) -> Verdict
    requires { 256 ≤ (S.Looking.meaning variables.old).capacity }
    ensures { (h : Heads) → Held h (H.Looking.meaning heads.now).levels → SheetWalked h (part sheet.number frames.now) sheet.number row result column.old column.new (S.Looking.meaning variables.old) (S.Looking.meaning variables.new) }
{
    let own = own_frames(frames, sheet, row.end);
    // as a slice, which can be borrowed by parts
    let column = &mut column[..];
    let types = &mut column[sheet.range()];
    examine(own, row.signature, types, heads, variables).unwrap()
}

impl Table {
    // Leaves one level in the store, with the name and head of every filled sheet.
    pub(crate) fn declare_heads<H: Declaring<u64>>(&self, heads: &mut H)
        requires { 256 ≤ (H.Looking.meaning heads.old).capacity }
        ensures { H.Looking.meaning heads.new ≡ with_levels (H.Looking.meaning heads.old) (heads_below 32 (signatures_of self.now.records) ∷ []) }
    {
        heads.wipe();
        heads.enter().unwrap();
        for slot in &self.records {
            if let Some(record) = slot {
                let Signature { name, head } = record.signature;
                heads.declare(name, head).unwrap();
            }
        }
    }

    // Walks each sheet that is due, in rising order, and answers how many there were.
    pub(crate) fn walk_due<H: Looking<u64>, S: Declaring<u8>>(
        &mut self,
        frames: &Frames,
        column: &mut Column,
        heads: &H,
        variables: &mut S,
    ) -> usize
        requires room { 256 ≤ (S.Looking.meaning variables.old).capacity }
        requires held { Held (heads_of (signatures_of self.old.records)) (H.Looking.meaning heads.now).levels }
        ensures result { result ≡ count_below 32 (λ t. due_flag (record_at (state_of self.old.records false frames.now column.old) t)) }
        ensures records { (t : ℕ) → t < 32 → record_of (slice_index_or self.new.records t None) ≡ checked_record cpp (state_of self.old.records false frames.now column.old) t }
        ensures column { column.new ≡ rewritten 32 (λ t. due_flag (record_at (state_of self.old.records false frames.now column.old) t)) (checked_column cpp (state_of self.old.records false frames.now column.old)) column.old }
        ensures variables { S.Looking.meaning variables.new ≡ variables_left (state_of self.old.records false frames.now column.old) (S.Looking.meaning variables.old) }
    {
        let mut walked = 0;
        for (t, slot) in self.records.iter_mut().enumerate() {
            if let Some(record) = slot {
                if record.due {
                    record.kept = walk_sheet(
                        *record,
                        Sheet::at(t),
                        frames,
                        column,
                        heads,
                        variables,
                    );
                    record.due = false;
                    walked += 1;
                }
            }
        }
        walked
    }

    // The fault of the lowest faulty sheet, by the verdicts kept. (`find_map` over the same chain was tried: `search (rules, chains)` finds
    // "no proof" that what it answers is the lowest sheet's, since its clauses tell items by the places of a run.)
    pub(crate) fn lowest_fault(&self) -> Option<Fault>
        ensures { map_some told result ≡ lowest 32 (λ t. kept_fault t (record_of (slice_index_or self.now.records t None))) }
    {
        for (t, slot) in self.records.iter().enumerate() {
            if let Some(record) = slot {
                let fault = record.fault(t as u8);
                if fault.is_some() {
                    return fault;
                }
            }
        }
        None
    }
}
