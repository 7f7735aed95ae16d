//! The words of the tasks' files, and the addresses of the tasks' places.
#![tactic(auto)]

mod error;
mod files;
mod index;
mod joined;
mod map;
mod pieces;
mod places;
mod plans;
mod runs;
mod symbols;

pub use error::MapError;
pub use map::CodeMap;
