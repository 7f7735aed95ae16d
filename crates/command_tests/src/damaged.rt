// The first file of a command, cut, ended and changed at each of its places.
use crate::answer::{Answer, NEVER, carry_out};
use crate::source::Source;
use crate::trial::Trial;
use std::alloc::{AllocError, Global};
use std::io;

/// A kind of damage to a file at a place.
#[derive(Clone, Copy)]
pub(crate) enum Damage {
    /// The file is cut there.
    Cut,
    /// The reads of the file end there, though its size is reported in full.
    Ended,
    /// The highest bit of the byte there is inverted.
    Turned,
}

impl Damage {
    // Damages the bytes of a file.
    fn put(self, bytes: &mut Vec<u8>, place: usize) {
        match self {
            Damage::Cut => bytes.truncate(place),
            Damage::Ended => {}
            Damage::Turned => {
                if let Some(byte) = bytes.get_mut(place) {
                    *byte ^= 0x80;
                }
            }
        }
    }

    // The place where the reads of the file end.
    fn end(self, place: usize) -> u64 {
        match self {
            Damage::Ended => place as u64,
            _ => u64::MAX,
        }
    }

    // The number of places in a file for this damage.
    fn places(self, bytes: &[u8]) -> usize {
        match self {
            Damage::Turned => bytes.len(),
            _ => bytes.len().saturating_add(1),
        }
    }
}

// The result of a command if its first file has this damage.
fn ends(alloc: Global, trial: &Trial, damage: Damage, place: usize) -> Result<Answer, AllocError> {
    let mut held = trial.held.clone()?;
    if let Some(first) = held.first_mut() {
        damage.put(&mut first.1, place);
    }
    let mut files = Source::ending(alloc, held, trial.first_name(), damage.end(place));
    carry_out(alloc, trial.words.as_slice(), &mut files, usize::MAX, NEVER)
}

// The first place from this one on at which the result of a command is different.
fn next_of(
    alloc: Global,
    trial: &Trial,
    damage: Damage,
    first: usize,
    places: usize,
    answer: &Answer,
) -> Result<usize, AllocError> {
    for place in first..places {
        if !ends(alloc, trial, damage, place)?.is_same(answer) {
            return Ok(place);
        }
    }
    Ok(places)
}

// Prints the result at the first of these places, and gives the place of the next different result.
fn print_range(
    rt: &HostRuntime,
    trial: &Trial,
    damage: Damage,
    first: usize,
    places: usize,
) -> io::Result<usize> {
    let answer = ends(rt.alloc(), trial, damage, first)?;
    let next = next_of(rt.alloc(), trial, damage, first, places, &answer)?;
    println!(rt; "places {first} to {}:", next.saturating_sub(1))?;
    answer.print(rt)?;
    Ok(next)
}

/// Damages the first file at each of its places, and prints the results. Consecutive places with
/// the same result are printed together.
pub(crate) fn print_damaged(rt: &HostRuntime, trial: &Trial, damage: Damage) -> io::Result<()> {
    let places = damage.places(trial.first_bytes());
    let mut first = 0;
    for _ in 0..places {
        if first < places {
            first = print_range(rt, trial, damage, first, places)?;
        }
    }
    Ok(())
}
