//! Certificates as text: version 2 is written, versions 1 and 2 are read.
#![tactic(auto)]

mod error;
mod keys;
mod kinds;
mod platform;
mod reading;
mod sets;
mod states;
mod task;
mod version;
mod writing;

pub use error::CertError;
pub use reading::read_certificate;
pub use writing::write_certificate;
