//! The plain union delays, the windows with them, and the certificate with these windows.
#![tactic(auto)]

mod certificate;
mod charged;
mod delays;
mod laws;
mod windows;

pub use cert_build::BuildError as ClassicError;
pub use certificate::classic;
pub use delays::{classic_ecb, classic_ucb};
pub use laws::{certificate_law, delays_law, lists_law, windows_law};
pub use windows::classic_windows;
