//! The keyed values of a text file: what names and numbers mean and the paths of keys, whatever the
//! format, and the keys of a TOML table.
#![tactic(auto)]

mod error;
mod named;
mod paths;
mod toml_keys;
mod toml_kinds;

pub use error::KeyError;
pub use named::{line_length, switching_named, valid_name};
pub use paths::{item_path, key_path};
pub use toml_keys::Keys;
pub use toml_kinds::{tables, whole};
