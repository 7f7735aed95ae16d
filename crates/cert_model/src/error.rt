//! Why a certificate was refused.

ghost use Rattle.std.specs.Prelude.{◌≡◌};
ghost use Rattle.cert_model.specs.declared.error.CertError.TheVariants.{Memory};

use crpd_base::Text;
use std::alloc::{AllocError, AllocFailed};
use thiserror::Error;

/// The first error in the text of a certificate. A key is reported with its path, and the whole
/// text as `-`.
#[derive(Debug, Drop, Error)]
pub enum CertError {
    /// There is no memory for the certificate or for the parsed text.
    #[error("out of memory")]
    Memory,
    /// The bytes are not JSON, or have lists and objects nested more than 127 deep, or a number
    /// beyond the 64-bit floats.
    #[error("not JSON")]
    NotJson,
    /// A key is absent.
    #[error("{0} is missing")]
    Missing(Text),
    /// A value is of a different kind or outside its range.
    #[error("{0} has a bad value")]
    BadValue(Text),
    /// There are more than 4,000,000 state entries: their number.
    #[error("{0} state entries are too many")]
    TooLong(u64),
    /// The version is a whole number below 2^64 other than 1 and 2.
    #[error("version {0} is not known")]
    OtherVersion(u64),
}

impl From<AllocError> for CertError {
    ghost from_gives = { λ _ e. e ≡ Memory };

    fn from(_e: AllocError) -> CertError {
        CertError::Memory
    }
}

impl<T: Drop> From<AllocFailed<T>> for CertError {
    ghost from_gives = { λ _ e. e ≡ Memory };

    fn from(_e: AllocFailed<T>) -> CertError {
        CertError::Memory
    }
}
