// The text of a verdict on a certificate.
ghost use Rattle.std.specs.Prelude.{◌≡◌, [], ◌∷◌, ◌++◌, codes, string_bytes, IfOk};
ghost use Rattle.crpd_base.specs.Names as names;
ghost use Rattle.crpd_report.specs.Check as spec;

use cert_check::Verdict;
use crpd_base::{Certificate, Memory, Method, TaskPart, TaskSet, task_name};
use std::alloc::{AllocError, Global};

fn method_name(method: Method) -> &'static str
    ensures { result.now ≡ names.method_name method }
{
    match method {
        Method::Ucb => "ucb",
        Method::Ecb => "ecb",
    }
}

/// Appends the times of a task in cycles and the method by which its window was found, and ends the
/// line.
pub(crate) fn add_times(
    text: &mut String,
    bound: u64,
    window: u64,
    response: u64,
    method: &str,
) -> Result<(), AllocError>
    ensures { IfOk result (λ _.
        string_bytes text.new ≡ string_bytes text.old
        ++ (spec.times_text bound window response method.now ++ 10 ∷ [])) }
{
    write!(
        text,
        "bound {bound} window {window} response {response} method {method}\n"
    )
}

/// Appends the line of a task of this name, with the times that a certificate states.
fn add_task(text: &mut String, name: &str, part: &TaskPart) -> Result<(), AllocError>
    ensures { IfOk result (λ _.
        string_bytes text.new ≡ string_bytes text.old
        ++ (name.now ++ codes " " ++ spec.stated_times part.now ++ 10 ∷ [])) }
{
    write!(text, "{name} ")?;
    let method = method_name(part.method);
    add_times(text, part.part.bound, part.window, part.response, method)
}

/// Appends the lines of an accepted certificate.
fn add_yes(text: &mut String, set: &TaskSet, certificate: &Certificate) -> Result<(), AllocError>
    ensures { IfOk result (λ _.
        string_bytes text.new ≡ string_bytes text.old ++ spec.yes_text set.now certificate.now) }
{
    text.push_str("yes\n")?;
    for (task, part) in set.tasks.iter().zip(certificate.tasks.as_slice()) {
        add_task(text, task.name.as_str(), part)?;
    }
    Ok(())
}

/// Appends the line of a rejected certificate.
fn add_no(text: &mut String, name: &str, clause: u8, place: u32) -> Result<(), AllocError>
    ensures { IfOk result (λ _.
        string_bytes text.new ≡ string_bytes text.old ++ spec.no_text name.now clause place) }
{
    write!(text, "no {name} clause {clause} place {place}\n")
}

/// Appends the text of a verdict on a certificate.
pub(crate) fn add_verdict(
    text: &mut String,
    set: &TaskSet,
    certificate: &Certificate,
    verdict: &Verdict,
) -> Result<(), AllocError>
    ensures { IfOk result (λ _.
        string_bytes text.new ≡ string_bytes text.old
        ++ spec.check_text set.now certificate.now verdict.now) }
{
    match *verdict {
        Verdict::Yes => add_yes(text, set, certificate),
        Verdict::No {
            task,
            clause,
            place,
        } => add_no(text, task_name(set, task), clause, place),
    }
}

/// The text of a verdict on a certificate. If it is accepted: `yes`, and a line for each task of
/// the set, with its name and what the certificate states at its place: bound, window and response
/// in cycles, and the method. Otherwise one line: the name of the first task for which a clause
/// does not hold, the number of that clause, and the place of the failure.
///
/// The task that the verdict names is in the set. `Memory` is the only error. Linear in the text.
pub fn check_text(
    alloc: Global,
    set: &TaskSet,
    certificate: &Certificate,
    verdict: &Verdict,
) -> Result<Vec<u8>, Memory>
    requires { spec.NamesTask set.now verdict.now }
    ensures { IfOk result (λ text.
        text.items ≡ spec.check_text set.now certificate.now verdict.now) }
{
    let mut text = String::new(alloc);
    match add_verdict(&mut text, set, certificate, verdict) {
        Ok(()) => Ok(text.into_bytes()),
        Err(_) => Err(Memory),
    }
}
