// Commands over files in memory, for programs that embed the certifier.
ghost use Rattle.std.specs.Prelude.{◌≡◌, ◌≢◌, Err, IfOk, map, string_bytes};
ghost use Rattle.crpd_io.specs.FilesInMemory.{file_named};
ghost use Rattle.crpd_tool.specs.Output.{IsOut, IsWhole, ending_output};
ghost use Rattle.crpd_tool.specs.Texts.{bad_words_text};

use crate::answer::Answer;
use crate::command::read_words;
use crate::front::perform;
use crate::status::Status;
use crate::texts::write_refusal;
use crate::writing::status_for;
use crpd_base::{Items, Memory};
use crpd_input::Halt;
use crpd_io::SureFiles;
use std::alloc::Global;

fn bad_words(alloc: Global) -> Result<Vec<u8>, Memory>
    ensures { IfOk result (λ text. text.items ≡ bad_words_text) }
{
    Ok(Vec::from_slice(alloc, b"bad words\n")?)
}

// The status and the whole text that result from the steps of a command without a fault.
fn whole_output(alloc: Global, ending: Result<Answer, Halt>) -> Result<(Status, Vec<u8>), Memory>
    requires { ending ≢ Err Halt.Fault }
    ensures status { IfOk result (λ found. found.0 ≡ (ending_output ending).status) }
    ensures text { IfOk result (λ found. found.1.items ≡ (ending_output ending).text) }
    ensures whole { IfOk result (λ found. IsWhole found.0) }
{
    match ending {
        Ok(answer) => Ok((status_for(answer.outcome), answer.text.into_vec())),
        Err(Halt::Refused(refusal)) => {
            let line = write_refusal(alloc, &refusal)?;
            Ok((Status::Refused, line.into_vec()))
        }
        Err(Halt::Memory) => Err(Memory),
        Err(Halt::Fault) => unreachable!(),
    }
}

/// What `run` writes for these words over files in memory, with its status: the output that is
/// defined for the words and the files' contents. Out of memory is the only error.
///
/// Another program can call the certifier like this, here for a verdict on files that it has in
/// memory:
///
///     let mut files = SureFiles::new(named);
///     let (status, text) = run_in_memory(alloc, words, &mut files)?;
///
/// The words are `check`, the set's name and the certificate's name; `named` also has the ELF
/// files. docs/GUIDE.md has the whole example. The cost is that of `run`.
pub fn run_in_memory(
    alloc: Global,
    words: &[String],
    files: &mut SureFiles,
) -> Result<(Status, Vec<u8>), Memory>
    ensures exact { IfOk result (λ found.
        IsOut (map string_bytes words.now) (file_named files.old.files.items)
        (record { text = found.1.items; status = found.0 })) }
    ensures whole { IfOk result (λ found. IsWhole found.0) }
    ensures same { file_named files.new.files.items ≡ file_named files.old.files.items }
{
    let Some(command) = read_words(words) else {
        return Ok((Status::BadWords, bad_words(alloc)?));
    };
    whole_output(alloc, perform(alloc, files, command))
}
