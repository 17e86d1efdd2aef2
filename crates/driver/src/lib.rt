// Drives the checker over an input: cuts it into pieces, makes of them a book, checks it, and reports what came of it.

#![tactic(auto)]

mod rejected;
mod reporting;
mod workspace;

pub use input::cut;
pub use reporting::{report, report_from};
