// The list of a task's own words.
ghost use Rattle.std.specs.Prelude.{◌≡◌, ◌+◌, ◌<◌, ◌++◌, length, string_bytes, IfOk};
ghost use Rattle.rv_decode.specs.Table.{ins_of_word};
ghost use Rattle.crpd_report.specs.List as spec;

use code_map::CodeMap;
use crpd_base::{Memory, Task, address_text};
use rv_decode::decode;
use std::alloc::Global;

/// The text of a word: that of its instruction, or `.word`.
fn word_text(alloc: Global, word: u32) -> Result<String, Memory>
    ensures { IfOk result (λ text. string_bytes text ≡ spec.word_text (ins_of_word word)) }
{
    match decode(word) {
        Some(ins) => ins.text(alloc),
        None => match String::from_str(alloc, ".word") {
            Ok(text) => Ok(text),
            Err(_) => Err(Memory),
        },
    }
}

/// The line of a word at an address.
fn word_line(alloc: Global, address: u32, word: u32) -> Result<String, Memory>
    ensures { IfOk result (λ text. string_bytes text ≡ spec.word_line address word) }
{
    let address = address_text(alloc, address)?;
    let digits = address_text(alloc, word)?;
    let text = word_text(alloc, word)?;
    match format!(in alloc; "{address} {digits} {text}\n") {
        Ok(line) => Ok(line),
        Err(_) => Err(Memory),
    }
}

/// Appends the line of the word at an address, if there is one.
fn add_line(
    alloc: Global,
    text: &mut Vec<u8>,
    address: u32,
    word: Option<u32>,
) -> Result<(), Memory>
    ensures { IfOk result (λ _. text.new.items ≡ text.old.items ++ spec.line_of address word) }
{
    let Some(word) = word else {
        return Ok(());
    };
    let line = word_line(alloc, address, word)?;
    match text.extend_from_slice(line.as_bytes()) {
        Ok(()) => Ok(()),
        Err(_) => Err(Memory),
    }
}

/// The list of a task's own words: one line for each address at which the task's own file has a
/// whole word, in increasing order, with the address, the word, and the text of its instruction, or
/// `.word` if it is none. An address and a word are 8 lower-case hexadecimal digits. A word may
/// extend over two adjacent segments of the file. The task is one of those of the code. `Memory` is
/// the only error. Linear in the text, with a look-up of each word.
#[tactic(auto, unfolding(crate::specs::List::list_text))]
pub fn list_text(alloc: Global, code: &CodeMap, task: Task) -> Result<Vec<u8>, Memory>
    requires { task.0 < length code.now.images }
    ensures { IfOk result (λ text. text.items ≡ spec.list_text code.now task) }
{
    let mut text = Vec::new(alloc);
    let mut from = 0;
    while let Some(address) = code.next_own(task, from) {
        add_line(alloc, &mut text, address, code.word(address))?;
        from = address + 1;
    }
    Ok(text)
}
