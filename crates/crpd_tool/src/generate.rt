// The command `generate`.
ghost use Rattle.std.specs.Prelude.{◌≡◌, ◌^◌, ◌<◌, ◌≤◌, length, map, string_bytes, IfOk, IsErrOf};
ghost use Rattle.std.specs.Prelude.{Ok};
ghost use Rattle.cert_build.specs.Best.{IsBest};
ghost use Rattle.crpd_base.specs.CertificateRanges.{IsCertificate};
ghost use Rattle.crpd_base.specs.Ranges.{IsTaskSet};
ghost use Rattle.preempt_machine.specs.Safe.{NamesTasks};
ghost use Rattle.task_shapes.specs.Inputs.{IsInput};
ghost use Rattle.crpd_report.specs.Generate.{made_line};
ghost use Rattle.crpd_input.specs.Shapes.{ShapedFrom};
ghost use Rattle.crpd_input.specs.Reading.{code_in};
ghost use Rattle.crpd_input.specs.Steps.{Exactly, Means, MeansBy, Then};
ghost use Rattle.crpd_tool.specs.Generate as spec;
ghost use Rattle.crpd_tool.specs.Generate.{GenerateEnds, GeneratedOf, contents_of_files, input_of};
ghost use Rattle.crpd_tool.specs.Generate.{made_name, named_files, without_made};
ghost use Rattle.crpd_tool.specs.Shaped.{graphs_of};

use crate::answer::Answer;
use crate::ending::without_certificate;
use crate::number::Seed;
use crate::texts::verdict_outcome;
use cert_build::{BuildError, certify};
use cert_check::verdict;
use code_map::CodeMap;
use crpd_base::{Certificate, Items, Script, TaskSet, TaskSpec};
use crpd_input::{Halt, Input, ShapedSet, load_code, shape_input};
use crpd_io::SureFiles;
use crpd_report::generate_text;
use flat_graph::Graph;
use preempt_fast::run_fast;
use std::alloc::{AllocError, Global};

/// The name used for the set's file in refusals.
const NAME: &str = "generate";

/// A file in memory, under the name that its task has for it.
fn named_file(alloc: Global, task: &TaskSpec, bytes: &[u8]) -> Result<(String, Vec<u8>), AllocError>
    ensures name { IfOk result (λ file. string_bytes file.0 ≡ task.now.file) }
    ensures bytes { IfOk result (λ file. file.1.items ≡ bytes.now) }
{
    let name = String::from_str(alloc, task.file.as_str())?;
    Ok((name, Vec::from_slice(alloc, bytes)?))
}

/// Files in memory, each under the name that its task has for it.
fn hold(alloc: Global, set: &TaskSet, files: &[Items<u8>]) -> Result<SureFiles, AllocError>
    requires { length files.now ≡ length set.now.tasks }
    ensures { IfOk result (λ kept.
        map (λ file. (string_bytes file.0, file.1.items)) kept.files.items
        ≡ named_files set.now files.now) }
{
    let mut kept = Vec::new(alloc);
    for (i, bytes) in files.iter().enumerate() {
        let file = named_file(alloc, &set.tasks.as_slice()[i], bytes.as_slice())?;
        kept.push(file)?;
    }
    Ok(SureFiles::new(kept))
}

/// The code of a set's tasks from these files, as for files that were read.
fn code_of_files(alloc: Global, set: &TaskSet, files: &[Items<u8>]) -> Result<CodeMap, Halt>
    requires ranges { IsTaskSet set.now }
    requires count { length files.now ≡ length set.now.tasks }
    ensures exact { Means
        (code_in (contents_of_files (named_files set.now files.now)) made_name set.now) result }
    ensures input { IfOk result (λ code. IsInput (record { set = set.now; code = code })) }
    ensures no_fault { ¬ IsErrOf result Halt.Fault }
{
    let mut kept = hold(alloc, set, files)?;
    load_code(alloc, &mut kept, NAME, set)
}

/// A set with the code of its given files, the graphs of its tasks and the regions of their loops,
/// as for a set that was read.
fn shape_files(alloc: Global, set: TaskSet, files: &[Items<u8>]) -> Result<ShapedSet, Halt>
    requires ranges { IsTaskSet set }
    requires count { length files.now ≡ length set.tasks }
    ensures exact { MeansBy (Then (Exactly (input_of set files.now)) ShapedFrom) result }
    ensures same { IfOk result (λ shaped. shaped.input.set ≡ set) }
    ensures no_fault { ¬ IsErrOf result Halt.Fault }
{
    let code = code_of_files(alloc, &set, files)?;
    let input = Input::new(alloc, set, code)?;
    shape_input(alloc, input)
}

/// The number of nodes of all graphs together.
fn node_count(graphs: &[Graph]) -> u64
    requires { length graphs.now ≤ 32 }
    ensures { result ≡ spec.node_count graphs.now }
{
    let mut nodes = 0u64;
    for graph in graphs {
        nodes += u64::from(graph.len());
    }
    nodes
}

/// The answer with a certificate: the checker's verdict on it, and the script's run.
fn certified_answer(
    alloc: Global,
    number: u32,
    script: &Script,
    shaped: &ShapedSet,
    certificate: &Certificate,
) -> Result<Answer, Halt>
    requires tasks { NamesTasks shaped.now.input.set script.now.jobs }
    requires jobs { length script.now.jobs < 2 ^ 32 }
    requires ranges { IsCertificate certificate.now }
    requires best { IsBest shaped.now.input.set (graphs_of shaped.now) certificate.now }
    ensures exact { MeansBy (GeneratedOf number script.now shaped.now) result }
    ensures no_fault { ¬ IsErrOf result Halt.Fault }
{
    shaped.shaped_law();
    let set = shaped.set();
    let graphs = shaped.graphs();
    let found = verdict(set, graphs, shaped.nests(), certificate);
    let code = shaped.input().code();
    let (completions, kept) = run_fast(alloc, code, set, script)?;
    let ends = completions.as_slice();
    let nodes = node_count(graphs);
    let text = generate_text(
        alloc,
        number,
        nodes,
        set,
        certificate,
        &found,
        script,
        ends,
        kept,
    )?;
    Ok(Answer {
        text: Items::new(text),
        outcome: verdict_outcome(&found),
    })
}

/// The line of the generated input, and an answer after it.
fn answer_behind_line(
    alloc: Global,
    number: u32,
    nodes: u64,
    answer: &Answer,
) -> Result<Answer, AllocError>
    ensures { IfOk result (λ whole.
        Ok whole ≡ spec.answer_behind_line (made_line number nodes) (Ok answer.now)) }
{
    let line = format!(in alloc; "generated {number} tasks 16 nodes {nodes}\n")?;
    let mut text = line.into_bytes();
    text.extend_from_slice(answer.text.as_slice())?;
    Ok(Answer {
        text: Items::new(text),
        outcome: answer.outcome,
    })
}

/// The end of the analysis of a generated set without a certificate, after the line of the
/// generated input.
fn uncertified_answer(
    alloc: Global,
    number: u32,
    shaped: &ShapedSet,
    error: BuildError,
) -> Result<Answer, Halt>
    ensures exact { MeansBy (Exactly (without_made number shaped.now error)) result }
    ensures no_fault { ¬ IsErrOf result Halt.Fault }
{
    shaped.shaped_law();
    let ending = without_certificate(alloc, NAME, shaped.set(), error)?;
    Ok(answer_behind_line(alloc, number, node_count(shaped.graphs()), &ending)?)
}

/// The answer of the analysis of a generated set.
fn analysis_answer(
    alloc: Global,
    number: u32,
    script: &Script,
    shaped: &ShapedSet,
) -> Result<Answer, Halt>
    requires tasks { NamesTasks shaped.now.input.set script.now.jobs }
    requires jobs { length script.now.jobs < 2 ^ 32 }
    ensures exact { MeansBy (GeneratedOf number script.now shaped.now) result }
    ensures no_fault { ¬ IsErrOf result Halt.Fault }
{
    shaped.shaped_law();
    match certify(alloc, shaped.set(), shaped.graphs(), shaped.nests()) {
        Ok(certificate) => certified_answer(alloc, number, script, shaped, &certificate),
        Err(error) => uncertified_answer(alloc, number, shaped, error),
    }
}

/// Generates the input of a number, analyses its set, checks the certificate, and runs its script.
/// No file is read.
pub(crate) fn generate(alloc: Global, seed: Seed) -> Result<Answer, Halt>
    ensures exact { MeansBy (GenerateEnds seed.number) result }
    ensures no_fault { ¬ IsErrOf result Halt.Fault }
{
    let made = gen_tasks::generate(alloc, seed.number)?;
    let set = made.set;
    let shaped = shape_files(alloc, set, made.files.as_slice())?;
    analysis_answer(alloc, seed.number, &made.script, &shaped)
}
