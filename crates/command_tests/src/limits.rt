// Files at the limits of what is read.
use crate::answer::print_carried_out;
use crate::source::Source;
use crate::trial::{Trial, push_file};
use std::alloc::{AllocError, Global};
use std::io;

// The blocks of 500 sets.
fn sure_of(alloc: Global) -> Result<String, AllocError> {
    let mut text = String::from_str(alloc, "0,0")?;
    for set in 1..500 {
        write!(&mut text, ",{set},0")?;
    }
    Ok(text)
}

// The states of 500 nodes, each with these blocks, the first node with these useful sets.
fn push_states(text: &mut String, sure: &str, useful: &str) -> Result<(), AllocError> {
    for node in 0..500 {
        let (start, useful) = if node == 0 { ("", useful) } else { (",", "") };
        write!(text, "{start}[{node},[{sure}],[{useful}]]")?;
    }
    Ok(())
}

// A task's part up to its window, with such states.
fn push_part(text: &mut String, name: &str, sure: &str, useful: &str) -> Result<(), AllocError> {
    write!(
        text,
        "{{\"bound\":12,\"evicting\":[0],\"loops\":[],\"method\":\"ucb\",\"name\":\"{name}\",\
         \"potentials\":[12,1],\"response\":17,\"states\":["
    )?;
    push_states(text, sure, useful)?;
    text.push_str("],\"useful\":[0],\"window\":17")
}

static FIRST: &str = "{\"platform\":{\"data\":3,\"div\":0,\"hit\":1,\"line\":16,\"miss\":10,\
     \"mul\":0,\"sets\":4,\"switch\":5,\"switching\":\"cycle\",\"taken\":2},\"tasks\":[";

static NAMES: [&str; 15] = [
    "t1", "t2", "t3", "t4", "t5", "t6", "t7", "t8", "t9", "t10", "t11", "t12", "t13", "t14", "t15",
];

// The useful sets of the first node, and what follows the last window.
type Ends = (&'static str, &'static str);

// The most entries that are allowed, one more, and that with a window that is not a whole number:
// entries are counted last.
static ENDS: [Ends; 3] = [
    ("", "}],\"version\":2}"),
    ("7", "}],\"version\":2}"),
    ("7", ".0}],\"version\":2}"),
];

// The tasks of the certificate, with these blocks.
fn push_tasks(text: &mut String, sure: &str, ends: &Ends) -> Result<(), AllocError> {
    let &(useful, last) = ends;
    text.push_str(FIRST)?;
    push_part(text, "one", sure, useful)?;
    for &name in &NAMES {
        text.push_str("},")?;
        push_part(text, name, sure, "")?;
    }
    text.push_str(last)
}

// A certificate of sixteen tasks with 4,000,000 entries, and those of these useful sets.
fn many_entries(alloc: Global, ends: &Ends) -> Result<String, AllocError> {
    let sure = sure_of(alloc)?;
    let mut text = String::new(alloc);
    push_tasks(&mut text, sure.as_str(), ends)?;
    Ok(text)
}

// Runs a command over its files and one more.
fn print_with(rt: &HostRuntime, trial: &Trial, name: &str, bytes: Vec<u8>) -> io::Result<()> {
    let mut held = trial.held.clone()?;
    push_file(&mut held, rt.alloc(), name, bytes)?;
    let mut files = Source::ending(rt.alloc(), held, "", u64::MAX);
    print_carried_out(rt, trial.words.as_slice(), &mut files)
}

/// Runs a command with `many.json`: a certificate with the most state entries that are allowed, one
/// with an additional entry, and that one with a value that is refused.
pub(crate) fn print_entries(rt: &HostRuntime, trial: &Trial) -> io::Result<()> {
    for ends in &ENDS {
        print_with(
            rt,
            trial,
            "many.json",
            many_entries(rt.alloc(), ends)?.into_bytes(),
        )?;
    }
    Ok(())
}

/// Runs a command with `long.toml`, a file with one byte more than is read.
pub(crate) fn print_long(rt: &HostRuntime, trial: &Trial) -> io::Result<()> {
    print_with(
        rt,
        trial,
        "long.toml",
        vec![in rt.alloc(); b'\n'; 16_777_217]?,
    )
}
