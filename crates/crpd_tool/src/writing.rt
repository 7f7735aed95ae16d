// What is written, and the status that reports it.
ghost use Rattle.std.specs.Prelude.{◌≡◌, ◌≢◌, ◌⊎◌, Err};
ghost use Rattle.crpd_tool.specs.Output.{IsWhole, status_of};
ghost use Rattle.crpd_tool.specs.Inner.Output.{Finished, Grows, IsWritten, Told};
ghost use Rattle.crpd_tool.specs.Texts.{bad_words_text, refusal_text};

use crate::answer::{Answer, Outcome};
use crate::status::Status;
use crate::texts::write_refusal;
use crpd_input::{Halt, Refusal};
use crpd_io::{Sink, write_all};
use std::alloc::Global;

pub(crate) fn status_for(outcome: Outcome) -> Status
    ensures is { result ≡ status_of outcome }
    ensures whole { IsWhole result }
    ensures of_words { result ≢ Status.BadWords }
{
    match outcome {
        Outcome::Done => Status::Done,
        Outcome::No => Status::No,
    }
}

// Writes a whole text, and ends with this status. It is the one place that writes.
fn finish<O: Sink>(out: &mut O, text: &[u8], status: Status) -> Status
    requires { IsWhole status }
    ensures finished { Finished (O.written out.old) (O.written out.new) (O.faults out.old)
        (O.faults out.new) text.now status result }
    ensures grows { Grows (O.written out.old) (O.written out.new) (O.faults out.old)
        (O.faults out.new) }
{
    match write_all(out, text) {
        Ok(()) => status,
        Err(_) => Status::WriteFault,
    }
}

fn write_answer<O: Sink>(out: &mut O, answer: &Answer) -> Status
    ensures finished { Finished (O.written out.old) (O.written out.new) (O.faults out.old)
        (O.faults out.new) answer.now.text (status_of answer.now.outcome) result }
    ensures grows { Grows (O.written out.old) (O.written out.new) (O.faults out.old)
        (O.faults out.new) }
    ensures written { IsWritten result }
    ensures of_words { result ≢ Status.BadWords }
{
    finish(out, answer.text.as_slice(), status_for(answer.outcome))
}

pub(crate) fn tell_bad_words<O: Sink>(out: &mut O) -> Status
    ensures finished { Finished (O.written out.old) (O.written out.new) (O.faults out.old)
        (O.faults out.new) bad_words_text Status.BadWords result }
    ensures grows { Grows (O.written out.old) (O.written out.new) (O.faults out.old)
        (O.faults out.new) }
{
    finish(out, b"bad words\n", Status::BadWords)
}

// Writes the line of a refusal, or nothing if out of memory.
fn tell_refusal<O: Sink>(alloc: Global, out: &mut O, refusal: &Refusal) -> Status
    ensures finished { ((result ≡ Status.NoMemory) × (O.written out.new ≡ O.written out.old))
        ⊎ Finished (O.written out.old) (O.written out.new) (O.faults out.old) (O.faults out.new)
        (refusal_text refusal.now) Status.Refused result }
    ensures grows { Grows (O.written out.old) (O.written out.new) (O.faults out.old)
        (O.faults out.new) }
{
    match write_refusal(alloc, refusal) {
        Ok(text) => finish(out, text.as_slice(), Status::Refused),
        Err(_) => Status::NoMemory,
    }
}

// Reports why a command stopped. Out of memory and a fault of the files have no text.
fn tell_halt<O: Sink>(alloc: Global, out: &mut O, halt: &Halt) -> Status
    ensures told { Told (Err halt.now) (O.written out.old) (O.written out.new) (O.faults out.old)
        (O.faults out.new) result }
    ensures grows { Grows (O.written out.old) (O.written out.new) (O.faults out.old)
        (O.faults out.new) }
{
    match halt {
        Halt::Refused(refusal) => tell_refusal(alloc, out, refusal),
        Halt::Memory => Status::NoMemory,
        Halt::Fault => Status::ReadFault,
    }
}

// Writes the result of the steps of a command.
pub(crate) fn write_ending<O: Sink>(
    alloc: Global,
    out: &mut O,
    ending: &Result<Answer, Halt>,
) -> Status
    ensures told { Told ending.now (O.written out.old) (O.written out.new) (O.faults out.old)
        (O.faults out.new) result }
    ensures grows { Grows (O.written out.old) (O.written out.new) (O.faults out.old)
        (O.faults out.new) }
{
    match ending {
        Ok(answer) => write_answer(out, answer),
        Err(halt) => tell_halt(alloc, out, halt),
    }
}
