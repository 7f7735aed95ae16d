// Command lines over the files on the disk, and over files that must not be read.
use crate::answer::print_carried_out;
use crate::source::Source;
use crate::trial::{Trial, words_of};
use std::io;

/// Runs a command over the files in the folder where this program runs.
pub(crate) fn print_command(rt: &HostRuntime, trial: &Trial) -> io::Result<()> {
    print_carried_out(rt, trial.words.as_slice(), &mut Source::disk(rt))
}

/// Runs a command, each word of which is in quotes, over files of which the first call fails. Such
/// words may be empty, or contain a space.
pub(crate) fn print_untouched(rt: &HostRuntime, line: &str) -> io::Result<()> {
    let inside = line.get(1..line.len().saturating_sub(1)).unwrap_or("");
    let words = words_of(rt.alloc(), inside, "\" \"")?;
    let mut files = Source::failing(rt.alloc(), Vec::new(rt.alloc()), usize::MAX, 0)?;
    print_carried_out(rt, words.as_slice(), &mut files)
}
