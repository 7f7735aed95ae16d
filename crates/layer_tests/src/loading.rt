// Programs of tasks, and task sets of them with their code.
ghost use Rattle.std.specs.Prelude.{◌≡◌, ◌<◌, ◌≤◌, IfOk, All, length};
ghost use Rattle.crpd_base.specs.Images.{IsImage};

use crate::words::TWO_WORDS;
use code_map::CodeMap;
use crpd_base::{
    Image, Items, LoopSpec, Place, Platform, Segment, Shared, Switching, TaskSet, TaskSpec, Text,
};
use std::alloc::{AllocError, Global};
use std::process::Abort;

// Four cache sets of lines of 16 bytes; a switch costs 5 cycles, and loading a line 10.
pub(crate) const PLATFORM: Platform = Platform {
    line: 16,
    sets: 4,
    hit: 1,
    miss: 10,
    memory: 3,
    taken: 2,
    switch: 5,
    mul: 0,
    div: 0,
    switching: Switching::Cycle,
};

// A stated loop: the byte address of its head, its bound, 1 to 1,000,000, and its range, from the
// first byte address up to, without, the second.
pub(crate) type Stated = (u32, u32, (u32, u32));

// A task and its program: the words from an address on, the entry if it is not that address, the
// stated loops, the times in cycles, and the number in the stack register at the start.
#[derive(Clone, Copy)]
pub(crate) struct Program<'a> {
    // The task's name, 1 to 32 bytes.
    pub(crate) name: &'a str,
    // The byte address of its first word, a multiple of 4.
    pub(crate) start: u32,
    // Its words, in the order of addresses.
    pub(crate) words: &'a [u32],
    // The byte address where its jobs start; `None` for the first word.
    pub(crate) entry: Option<u32>,
    // Its stated loops, at most 64.
    pub(crate) loops: &'a [Stated],
    // The fewest cycles between two arrivals: 1 to 2^40.
    pub(crate) period: u64,
    // The most cycles from an arrival to the job's completion: 1 to the period.
    pub(crate) deadline: u64,
    // The most cycles from an arrival to the job's release.
    pub(crate) jitter: u64,
    // What x2 holds at a job's start.
    pub(crate) stack: u32,
}

// The task `one` of two words at 0x1000, with a period and a deadline of 100 cycles.
pub(crate) const ONE: Program<'static> = Program {
    name: "one",
    start: 0x1000,
    words: &TWO_WORDS,
    entry: None,
    loops: &[],
    period: 100,
    deadline: 100,
    jitter: 0,
    stack: 0,
};

// The bytes of words, the lowest byte of each first.
fn bytes_of(rt: &impl Abort, alloc: Global, words: &[u32]) -> Vec<u8> {
    let mut bytes = Vec::new(alloc);
    for word in words {
        bytes
            .extend_from_slice(&word.to_le_bytes())
            .expect(rt, "memory");
    }
    bytes
}

// The segments of a program: one of code. It begins below 1,000,000 and has fewer than 1,000,000
// bytes.
fn image_of(rt: &impl Abort, alloc: Global, program: &Program) -> Image
    ensures { IsImage result }
{
    let bytes = bytes_of(rt, alloc, program.words);
    assert!(rt; program.start < 1_000_000 && bytes.len() < 1_000_000);
    let segment = Segment {
        address: program.start,
        size: bytes.len() as u64,
        bytes: Items::new(bytes),
        executable: true,
    };
    let mut segments = Vec::new(alloc);
    segments.push(segment).expect(rt, "memory");
    Image {
        entry: program.start,
        segments: Shared::new(segments).expect(rt, "memory"),
        symbols: Shared::new(Vec::new(alloc)).expect(rt, "memory"),
    }
}

fn images_of(rt: &impl Abort, alloc: Global, programs: &[Program]) -> Result<Vec<Image>, AllocError>
    ensures { IfOk result (λ images. All IsImage images.items) }
{
    let mut images = Vec::new(alloc);
    for program in programs {
        images.push(image_of(rt, alloc, program))?;
    }
    Ok(images)
}

// A loop with one range.
fn loop_of(rt: &impl Abort, alloc: Global, stated: &Stated) -> LoopSpec {
    let (head, bound, (from, to)) = *stated;
    let mut ranges = Vec::new(alloc);
    ranges
        .push((Place::Number(from), Place::Number(to)))
        .expect(rt, "memory");
    LoopSpec {
        head: Place::Number(head),
        bound,
        ranges: Items::new(ranges),
    }
}

fn loops_of(rt: &impl Abort, alloc: Global, stated: &[Stated]) -> Vec<LoopSpec> {
    let mut loops = Vec::new(alloc);
    for stated in stated {
        let stated = loop_of(rt, alloc, stated);
        loops.push(stated).expect(rt, "memory");
    }
    loops
}

pub(crate) fn text_of(rt: &impl Abort, alloc: Global, text: &str) -> Text {
    Text::new(String::from_str(alloc, text).expect(rt, "memory"))
}

fn task_of(rt: &impl Abort, alloc: Global, program: &Program) -> TaskSpec {
    let entry = match program.entry {
        Some(address) => Some(Place::Number(address)),
        None => None,
    };
    TaskSpec {
        name: text_of(rt, alloc, program.name),
        file: text_of(rt, alloc, program.name),
        entry,
        period: program.period,
        deadline: program.deadline,
        jitter: program.jitter,
        stack: Place::Number(program.stack),
        global: Place::Number(0),
        loops: Items::new(loops_of(rt, alloc, program.loops)),
    }
}

fn set_of(rt: &impl Abort, alloc: Global, platform: &Platform, programs: &[Program]) -> TaskSet {
    let mut tasks = Vec::new(alloc);
    for program in programs {
        let task = task_of(rt, alloc, program);
        tasks.push(task).expect(rt, "memory");
    }
    TaskSet {
        platform: *platform,
        tasks: Items::new(tasks),
    }
}

// The code of a set's tasks, which have these programs.
fn code_of(rt: &impl Abort, alloc: Global, set: &TaskSet, programs: &[Program]) -> CodeMap {
    let images = images_of(rt, alloc, programs).expect(rt, "memory");
    assert!(rt; images.len() == set.tasks.len() && images.len() <= 32);
    CodeMap::new(alloc, set, images)
        .ok()
        .expect(rt, "a code map")
}

// A task set, and the code of its files: a plan for each of its tasks, lines that are not empty,
// and 1 to 512 cache sets.
#[derive(Drop)]
pub(crate) struct Loaded {
    // The task set, of 1 to 32 tasks.
    pub(crate) set: TaskSet,
    // The code of its tasks, with a plan for each.
    pub(crate) code: CodeMap,
    ghost some: { 0 < length set.tasks },
    ghost plans: { length code.plans ≡ length set.tasks },
    ghost line: { 0 < set.platform.line },
    ghost sets: { 0 < set.platform.sets },
    ghost few: { set.platform.sets ≤ 512 },
}

// A set and its code, in the ranges that hold after loading.
fn loaded_of(rt: &impl Abort, set: TaskSet, code: CodeMap) -> Loaded {
    code.plans_law();
    let platform = &set.platform;
    assert!(rt; 0 < platform.line && 0 < platform.sets && platform.sets <= 512);
    let tasks = set.tasks.len();
    assert!(rt; 0 < tasks && code.images().len() == tasks);
    Loaded { set, code }
}

// The set of these programs, in priority order, with its code.
pub(crate) fn load(
    rt: &impl Abort,
    alloc: Global,
    platform: &Platform,
    programs: &[Program],
) -> Box<Loaded> {
    let set = set_of(rt, alloc, platform, programs);
    let code = code_of(rt, alloc, &set, programs);
    Box::new(alloc, loaded_of(rt, set, code)).expect(rt, "memory")
}
