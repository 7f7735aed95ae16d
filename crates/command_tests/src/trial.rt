// A command with copies of its files in memory.
use std::alloc::{AllocError, Global};
use std::{fs, io};

/// Files by name with their bytes.
pub(crate) type Held = Vec<(String, Vec<u8>)>;

/// The words of a command, and its files.
#[derive(Drop)]
pub(crate) struct Trial {
    pub(crate) words: Vec<String>,
    pub(crate) held: Held,
}

/// The text before the first such mark of a line, and the text after it, which is empty if there is
/// no mark.
pub(crate) fn halves<'a>(line: &'a str, mark: &str) -> (&'a str, &'a str) {
    line.split_once(mark).unwrap_or((line, ""))
}

/// The words that this mark separates; an empty text has none.
pub(crate) fn words_of(alloc: Global, text: &str, mark: &str) -> Result<Vec<String>, AllocError> {
    let mut words = Vec::new(alloc);
    if text.is_empty() {
        return Ok(words);
    }
    for word in text.split(mark) {
        words.push(String::from_str(alloc, word)?)?;
    }
    Ok(words)
}

/// Appends a file with this name.
pub(crate) fn push_file(
    held: &mut Held,
    alloc: Global,
    name: &str,
    bytes: Vec<u8>,
) -> Result<(), AllocError> {
    held.push((String::from_str(alloc, name)?, bytes))?;
    Ok(())
}

// The files with these names in the folder where this program runs.
fn files_of(rt: &HostRuntime, names: &str) -> io::Result<Held> {
    let mut held = Vec::new(rt.alloc());
    for name in names.split(" ") {
        if !name.is_empty() {
            push_file(&mut held, rt.alloc(), name, fs::read(rt, name)?)?;
        }
    }
    Ok(held)
}

impl Trial {
    /// The command before `with`, over the files with the names after it.
    pub(crate) fn read(rt: &HostRuntime, line: &str) -> io::Result<Trial> {
        let (words, names) = halves(line, " with ");
        let words = words_of(rt.alloc(), words, " ")?;
        let held = files_of(rt, names)?;
        Ok(Trial { words, held })
    }

    /// The name of the first file, or the empty name if there is none.
    pub(crate) fn first_name(&self) -> &str {
        match self.held.first() {
            Some(first) => first.0.as_str(),
            None => "",
        }
    }

    /// The bytes of the first file, or none if there is no file.
    pub(crate) fn first_bytes(&self) -> &[u8] {
        match self.held.first() {
            Some(first) => first.1.as_slice(),
            None => &[],
        }
    }
}
