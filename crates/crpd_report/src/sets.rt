// The text of the evicting and useful cache sets of tasks.
ghost use Rattle.std.specs.Prelude.{◌≡◌, [], ◌∷◌, ◌++◌, codes, string_bytes, IfOk};
ghost use Rattle.crpd_report.specs.Sets as spec;

use crpd_base::{Memory, Part, SETS, SetBits, TaskSet, WORDS};
use std::alloc::{AllocError, Global};

/// Appends a space and a number.
fn add_number(text: &mut String, number: usize) -> Result<(), AllocError>
    ensures { IfOk result (λ _.
        string_bytes text.new ≡ string_bytes text.old ++ spec.number_text number) }
{
    write!(text, " {number}")
}

/// Appends the numbers of a set, in increasing order.
fn add_numbers(text: &mut String, set: &SetBits<WORDS>) -> Result<(), AllocError>
    ensures { IfOk result (λ _.
        string_bytes text.new ≡ string_bytes text.old ++ spec.numbers_text set.now) }
{
    for number in 0..SETS {
        if set.has(number as u16) {
            add_number(text, number)?;
        }
    }
    Ok(())
}

/// Appends the line of a task of this name with its sets of one kind.
fn add_line(
    text: &mut String,
    name: &str,
    kind: &str,
    set: &SetBits<WORDS>,
) -> Result<(), AllocError>
    ensures { IfOk result (λ _.
        string_bytes text.new ≡ string_bytes text.old
        ++ (name.now ++ codes " " ++ kind.now ++ spec.numbers_text set.now ++ 10 ∷ [])) }
{
    write!(text, "{name} {kind}")?;
    add_numbers(text, set)?;
    text.push_str("\n")
}

/// Appends the two lines of a task of this name.
fn add_task(text: &mut String, name: &str, part: &Part) -> Result<(), AllocError>
    ensures { IfOk result (λ _.
        string_bytes text.new ≡ string_bytes text.old ++ spec.part_lines name.now part.now) }
{
    add_line(text, name, "evicting", &part.evicting)?;
    add_line(text, name, "useful", &part.useful)
}

fn lines(alloc: Global, set: &TaskSet, parts: &[Part]) -> Result<String, AllocError>
    ensures { IfOk result (λ text. string_bytes text ≡ spec.sets_text set.now parts.now) }
{
    let mut text = String::new(alloc);
    for (task, part) in set.tasks.iter().zip(parts) {
        add_task(&mut text, task.name.as_str(), part)?;
    }
    Ok(text)
}

/// The cache sets of tasks. For each task of the set, with the part at its place: a line `NAME
/// evicting` with the sets that its accesses fill, and a line `NAME useful` with those that hold a
/// useful block at some point. The numbers of cache sets follow in increasing order, with a space
/// before each. `Memory` is the only error. Time is one step for each task and each of the most
/// cache sets of a platform, and linear in the text.
///
/// Source: C.-G. Lee et al., Analysis of cache-related preemption delay in fixed-priority
/// preemptive scheduling, IEEE Transactions on Computers 47 (1998) (useful cache blocks).
pub fn sets_text(alloc: Global, set: &TaskSet, parts: &[Part]) -> Result<Vec<u8>, Memory>
    ensures { IfOk result (λ text. text.items ≡ spec.sets_text set.now parts.now) }
{
    match lines(alloc, set, parts) {
        Ok(text) => Ok(text.into_bytes()),
        Err(_) => Err(Memory),
    }
}
