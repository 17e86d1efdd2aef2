// The syntax of CPP: frames, the table of kinds, trees and their linear writing, and the form of a sheet.

#![tactic(auto)]

pub mod examples;
pub mod fault;
pub mod frame;
pub mod kinds;
pub mod stages;

pub use fault::{Diagnostic, Fault};
pub use frame::{Frame, Parameter, Type, UnknownType};
pub use kinds::{Role, Row, Span};
pub use stages::{Stage, Unfinished};
