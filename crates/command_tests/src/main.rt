//! Tests of the certifier over files. A line of standard input is a heading `# TEXT`, or of one of
//! these kinds; what its command writes is printed with the status:
//!
//! - `crpd COMMAND WORD ..`: over the files in the folder where this program runs.
//! - `untouched "COMMAND" "WORD" ..`: over files of which the first call fails.
//! - `failing COMMAND WORD .. with FILE ..`: over copies of the files in memory, each call failing.
//! - `cut`, `ended`, `turned COMMAND WORD .. with FILE ..`: with the first file damaged.
//! - `entries COMMAND WORD .. with FILE ..`: also with the certificates `many.json`.
//! - `long COMMAND WORD ..`: with the file `long.toml`, which is too long.
//!
//! The functions that print them say more. Any other line ends the program with an error.
#![tactic(auto)]

mod answer;
mod command;
mod damaged;
mod failing;
mod limits;
mod source;
mod trial;

use command::{print_command, print_untouched};
use damaged::{Damage, print_damaged};
use failing::print_failing;
use limits::{print_entries, print_long};
use std::io;
use std::io::ErrorKind;
use trial::{Trial, halves};

fn print_trial(rt: &HostRuntime, kind: &str, trial: &Trial) -> io::Result<()> {
    match kind {
        "crpd" => print_command(rt, trial),
        "failing" => print_failing(rt, trial),
        "cut" => print_damaged(rt, trial, Damage::Cut),
        "ended" => print_damaged(rt, trial, Damage::Ended),
        "turned" => print_damaged(rt, trial, Damage::Turned),
        "entries" => print_entries(rt, trial),
        "long" => print_long(rt, trial),
        _ => Err(ErrorKind::InvalidInput.into()),
    }
}

fn print_line(rt: &HostRuntime, line: &str) -> io::Result<()> {
    let (kind, rest) = halves(line, " ");
    if kind == "#" {
        return println!(rt; "{line}");
    }
    println!(rt; "$ {line}")?;
    if kind == "untouched" {
        return print_untouched(rt, rest);
    }
    print_trial(rt, kind, &Trial::read(rt, rest)?)
}

fn main(rt: HostRuntime) -> io::Result<()> {
    for line in rt.lines(rt.alloc()) {
        let line = line?;
        print_line(&rt, line.as_str())?;
    }
    Ok(())
}
