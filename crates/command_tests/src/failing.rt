// Each call of the files and of the output fails in turn.
use crate::answer::{Answer, NEVER, ask, carry_out};
use crate::source::Source;
use crate::trial::Trial;
use crpd_tool::Status;
use std::alloc::{AllocError, Global};
use std::io;

// The most bytes that a call gives or takes.
static MOSTS: [usize; 3] = [1, 7, 4096];

// The most bytes that a call gives or takes, and the numbers of the calls that fail.
#[derive(Clone, Copy)]
struct Calls {
    most: usize,
    of_files: u64,
    of_output: u64,
}

// The result of a command if these calls fail.
fn ends(alloc: Global, trial: &Trial, calls: Calls) -> Result<Answer, AllocError> {
    let mut files = Source::failing(alloc, trial.held.clone()?, calls.most, calls.of_files)?;
    let words = trial.words.as_slice();
    carry_out(alloc, words, &mut files, calls.most, calls.of_output)
}

// The number of the first call of the files that is not made, or whose failure is not a read fault
// without text.
fn reads(alloc: Global, trial: &Trial, most: usize) -> Result<u64, AllocError> {
    for of_files in 0..NEVER {
        let calls = Calls {
            most,
            of_files,
            of_output: NEVER,
        };
        if !ends(alloc, trial, calls)?.is(Status::ReadFault, b"") {
            return Ok(of_files);
        }
    }
    Ok(NEVER)
}

// The number of the first call of the output that is not made, or whose failure is not a write
// fault after the pieces before it.
fn writes(alloc: Global, trial: &Trial, most: usize, text: &[u8]) -> Result<u64, AllocError> {
    for of_output in 0..NEVER {
        let calls = Calls {
            most,
            of_files: NEVER,
            of_output,
        };
        let written = most.saturating_mul(of_output as usize).min(text.len());
        if !ends(alloc, trial, calls)?.is(Status::WriteFault, &text[..written]) {
            return Ok(of_output);
        }
    }
    Ok(NEVER)
}

// Prints the result if these calls fail, one of which has this number, or that the result is that
// of the whole command.
fn print_call(
    rt: &HostRuntime,
    trial: &Trial,
    calls: Calls,
    number: u64,
    whole: &Answer,
) -> io::Result<()> {
    let found = ends(rt.alloc(), trial, calls)?;
    if found.is_same(whole) {
        return println!(rt; "  call {number}: as without a failing call");
    }
    println!(rt; "  call {number}:")?;
    found.print(rt)
}

fn print_read(
    rt: &HostRuntime,
    trial: &Trial,
    most: usize,
    of_files: u64,
    whole: &Answer,
) -> io::Result<()> {
    let calls = Calls {
        most,
        of_files,
        of_output: NEVER,
    };
    print_call(rt, trial, calls, of_files, whole)
}

fn print_reads(rt: &HostRuntime, trial: &Trial, most: usize, whole: &Answer) -> io::Result<()> {
    let count = reads(rt.alloc(), trial, most)?;
    println!(rt; "at most {most} in a read: {count} calls fail, each with ReadFault and no text")?;
    print_read(rt, trial, most, count, whole)?;
    print_read(rt, trial, most, count.saturating_add(1), whole)?;
    print_read(rt, trial, most, NEVER, whole)
}

fn print_writes(rt: &HostRuntime, trial: &Trial, most: usize, whole: &Answer) -> io::Result<()> {
    let count = writes(rt.alloc(), trial, most, whole.text())?;
    println!(rt;
        "at most {most} in a write: {count} calls fail, each with WriteFault and the pieces before"
    )?;
    let calls = Calls {
        most,
        of_files: NEVER,
        of_output: count,
    };
    print_call(rt, trial, calls, count, whole)
}

fn print_calls(rt: &HostRuntime, trial: &Trial, whole: &Answer) -> io::Result<()> {
    whole.print(rt)?;
    for &most in &MOSTS {
        print_reads(rt, trial, most, whole)?;
        print_writes(rt, trial, most, whole)?;
    }
    Ok(())
}

/// Lets each call of the files fail in turn, and each call of the output, with few and with many
/// bytes in a call. A call that is not made cannot fail, and no later one is made: then the result
/// is that of the command over files in memory.
pub(crate) fn print_failing(rt: &HostRuntime, trial: &Trial) -> io::Result<()> {
    let whole = ask(rt.alloc(), trial.words.as_slice(), trial.held.clone()?)?;
    print_calls(rt, trial, &whole)
}
