// The result of a command: its status and its text.
use crate::source::Source;
use crate::trial::Held;
use crpd_io::{MemSink, StdSink, SureFiles, write_all};
use crpd_tool::{Status, run, run_in_memory};
use std::alloc::{AllocError, Global};
use std::io;
use std::io::ErrorKind;

/// A number that no call has.
pub(crate) const NEVER: u64 = u64::MAX;

/// A status, and the text that was written.
#[derive(Drop)]
pub(crate) struct Answer {
    status: Status,
    text: Vec<u8>,
}

impl Answer {
    /// Whether the result is this status with this text.
    pub(crate) fn is(&self, status: Status, text: &[u8]) -> bool {
        self.status == status && self.text.as_slice() == text
    }

    /// Whether both results are the same.
    pub(crate) fn is_same(&self, other: &Answer) -> bool {
        self.is(other.status, other.text())
    }

    pub(crate) fn text(&self) -> &[u8] {
        self.text.as_slice()
    }

    pub(crate) fn print(&self, rt: &HostRuntime) -> io::Result<()> {
        if write_all(&mut StdSink::new(rt), self.text()).is_err() {
            return Err(ErrorKind::WriteZero.into());
        }
        println!(rt; "{:?} {}", self.status, self.status.code())
    }
}

/// Runs a command. A call of its output takes at most `most` bytes, and at least one. The call with
/// the number `failing` fails, and so does each call after 10,000 bytes have been taken.
pub(crate) fn carry_out(
    alloc: Global,
    words: &[String],
    files: &mut Source,
    most: usize,
    failing: u64,
) -> Result<Answer, AllocError> {
    match MemSink::new(alloc, 10_000, most.max(1), vec![in alloc; failing]?) {
        Ok(mut out) => {
            let status = run(alloc, words, files, &mut out);
            let text = Vec::from_slice(alloc, out.written())?;
            Ok(Answer { status, text })
        }
        Err(_) => Err(AllocError),
    }
}

/// Runs a command over files in memory, of which no call fails, without an output in between.
pub(crate) fn ask(alloc: Global, words: &[String], held: Held) -> Result<Answer, AllocError> {
    match run_in_memory(alloc, words, &mut SureFiles::new(held)) {
        Ok((status, text)) => Ok(Answer { status, text }),
        Err(_) => Err(AllocError),
    }
}

/// Runs a command, no call of whose output fails, and prints its result.
pub(crate) fn print_carried_out(
    rt: &HostRuntime,
    words: &[String],
    files: &mut Source,
) -> io::Result<()> {
    carry_out(rt.alloc(), words, files, usize::MAX, NEVER)?.print(rt)
}
