// The answers of the calls on files. They exist only in proofs.
ghost use Rattle.std.specs.Prelude.{◌≡◌, List, []};
ghost use base.Fml.{ftrue};
ghost use Rattle.crpd_io.specs.Answers.{FileAnswer};

use std::marker::Model;

/// A log of the answers, newest first. It takes no bytes.
#[derive(Drop)]
pub struct Log {
    pub ghost answers: { List FileAnswer },
}

impl Model for Log {
    ghost also_owns = { λ _. ftrue };
}

/// The answer of a call.
#[derive(Clone, Copy, Drop)]
pub enum Told<'a> {
    /// The size of a file, if there is one of this name.
    Size(&'a str, Option<u64>),
    /// A call of `size` failed.
    NoSize(&'a str),
    /// Bytes of a file from a place on, for a buffer of a length.
    Bytes(&'a str, u64, usize, &'a [u8]),
    /// A call of `read` failed.
    NoBytes(&'a str),
}

impl Log {
    ghost use Rattle.crpd_io.specs.Told.{log_with};

    /// No answers. It does nothing at run time.
    #[inline(always)]
    pub fn new() -> Log
        ensures { result.answers ≡ [] }
    {
        Log {}
    }

    /// The answers after one more call. It does nothing at run time.
    #[inline(always)]
    pub fn then(&self, _told: &Told<'_>) -> Log
        ensures { result.answers ≡ log_with _told.now self.now.answers }
    {
        Log {}
    }
}
