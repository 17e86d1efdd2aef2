// Frames, their text, and the form of a sheet.

#![tactic(auto)]

pub mod formed;
mod kinds;
mod machine;
pub mod things;

pub use codec::{read, write};
pub use formed::Formed;
pub use formed::forming::form;
pub use syntax::{Diagnostic, Fault, Frame, Parameter, Type, UnknownType};
pub use things::{Things, TooDeep};
