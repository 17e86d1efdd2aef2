// The records of the 32 sheets.
ghost use Rattle.std.specs.Prelude.{◌≡◌, ℕ, true, None, length, slice_index_or};
ghost use Rattle.records.specs.Records.{headed, clash};

use records::Record;

// Each record has a packed head, and no two have one name.
#[derive(Drop)]
pub struct Table {
    records: [Option<Record>; 32],
    ghost full: { length records ≡ 32 },
    ghost heads: { (t : ℕ) → headed (slice_index_or records t None) ≡ true },
    ghost apart: { (t u : ℕ) → clash (slice_index_or records t None) (slice_index_or records u None) ≡ true → t ≡ u },
}

pub mod marking;
pub mod naming;
pub mod rows;
pub mod walking;
