// Plain data: the contents of files, and what is certified.
ghost use Rattle.std.specs.Prelude.{◌≡◌};

use crate::limits::WORDS;
use crate::lists::{Items, Shared, Text};
use crate::set_bits::SetBits;
use std::alloc::{AllocError, AllocFailed};

/// Out of memory: an allocation failed. `?` converts the library's allocation errors to it.
#[derive(Clone, Copy, Debug)]
pub struct Memory;

impl From<AllocError> for Memory {
    ghost from_gives = { λ _ e. e ≡ record {} };

    fn from(_e: AllocError) -> Memory {
        Memory
    }
}

impl<T: Drop> From<AllocFailed<T>> for Memory {
    ghost from_gives = { λ _ e. e ≡ record {} };

    fn from(_e: AllocFailed<T>) -> Memory {
        Memory
    }
}

/// A task's place in priority order, 0 the highest, at most 31.
#[derive(Clone, Copy, PartialEq, Eq)]
pub struct Task(pub u8);

/// A node's number in its task's flat graph, from 0, below 16,384. Nodes are ordered by context,
/// then by address.
#[derive(Clone, Copy, PartialEq, Eq)]
pub struct NodeId(pub u32);

/// A job of a script.
#[derive(Clone, Copy, PartialEq, Eq)]
pub struct JobId {
    /// The job's task.
    pub task: Task,
    /// How many jobs of this task come before it in the script, below 10,000.
    pub number: u32,
}

/// Where a switch from one job to another may happen.
#[derive(Clone, Copy, PartialEq, Eq)]
pub enum Switching {
    /// In every cycle; an interrupted instruction continues later with its remaining cycles.
    Cycle,
    /// Only between two instructions.
    Instruction,
}

/// The core and its direct-mapped instruction cache. Costs are in cycles; additional ones are on
/// top of `hit`.
#[derive(Clone, Copy, PartialEq, Eq)]
pub struct Platform {
    /// Length of a cache line in bytes: 4, 8, 16, 32 or 64. The block of a byte address is the
    /// address divided by it.
    pub line: u32,
    /// How many cache sets there are, each of one line: 1 to 512.
    pub sets: u32,
    /// Cycles of any instruction: 1 to 65,535.
    pub hit: u32,
    /// Additional cycles if the instruction's block has to be loaded: 0 to 65,535.
    pub miss: u32,
    /// Additional cycles of a load or store: 0 to 65,535. Files state it under the key `data`.
    pub memory: u32,
    /// Additional cycles of a branch or jump whose next address is not the following one: 0 to
    /// 65,535.
    pub taken: u32,
    /// Cycles of a context switch: 0 to 65,535.
    pub switch: u32,
    /// Additional cycles of mul, mulh, mulhsu and mulhu: 0 to 65,535.
    pub mul: u32,
    /// Additional cycles of div, divu, rem and remu: 0 to 65,535.
    pub div: u32,
    /// Where a switch may happen.
    pub switching: Switching,
}

/// A byte address, as a number or by a symbol of the task's own ELF file.
#[derive(Drop)]
pub enum Place {
    /// The address itself.
    Number(u32),
    /// The value of the file's first symbol of this name, which is not empty, plus the offset in
    /// bytes.
    Symbol { name: Text, offset: u32 },
}

/// A loop that the user states, with its bound. It consists of its head and the addresses in its
/// ranges.
#[derive(Drop)]
pub struct LoopSpec {
    /// The place of the instruction at which each iteration begins.
    pub head: Place,
    /// How often the head is reached at most each time the loop is entered: 1 to 1,000,000.
    pub bound: u32,
    /// Pairs of places; each pair covers the addresses from the first place up to, but not
    /// including, the second. A pair may cover none.
    pub ranges: Items<(Place, Place)>,
}

/// A task as its set states it. Times are in cycles.
#[derive(Drop)]
pub struct TaskSpec {
    /// 1 to 32 bytes, each an ASCII letter or digit, `_`, `.` or `-`; no two tasks of a set have
    /// the same name.
    pub name: Text,
    /// The name of its ELF file: 1 to 255 bytes, none of them 0x7F or below 0x21.
    pub file: Text,
    /// Where its jobs start; None means the entry that the ELF file names.
    pub entry: Option<Place>,
    /// The smallest number of cycles between two arrivals of its jobs: 1 to 2^40.
    pub period: u64,
    /// The cycles from an arrival within which the job has to complete: 1 to the period.
    pub deadline: u64,
    /// How many cycles after its arrival a job is released at most: 0 to 2^40.
    pub jitter: u64,
    /// What x2 holds at a job's start.
    pub stack: Place,
    /// What x3 holds at a job's start.
    pub global: Place,
    /// Its stated loops, at most 64.
    pub loops: Items<LoopSpec>,
}

/// Fixed-priority preemptive tasks that share one core and its instruction cache.
#[derive(Drop)]
pub struct TaskSet {
    /// The core and its cache.
    pub platform: Platform,
    /// 1 to 32 tasks in priority order, the highest first.
    pub tasks: Items<TaskSpec>,
}

/// A PT_LOAD segment of an ELF32 file.
#[derive(Drop)]
pub struct Segment {
    /// The byte address at which it begins (`p_vaddr`).
    pub address: u32,
    /// Its length in bytes (`p_memsz`); address plus size is at most 2^32.
    pub size: u64,
    /// Its first bytes, as in the file (`p_filesz` of them, at most the size); the others are 0.
    pub bytes: Items<u8>,
    /// Whether its bytes are code (flag PF_X).
    pub executable: bool,
}

/// A symbol of an ELF32 file.
#[derive(Drop)]
pub struct Symbol {
    /// The bytes of its name without the zero at the end; at least one.
    pub name: Items<u8>,
    /// Its value (`st_value`), a byte address.
    pub value: u32,
}

/// What is read from a RISC-V ELF32 executable.
#[derive(Drop)]
pub struct Image {
    /// The byte address at which it starts (`e_entry`).
    pub entry: u32,
    /// Its PT_LOAD segments in the order of the program headers; no two share an address.
    pub segments: Shared<Segment>,
    /// Its symbols in the order of the first symbol table, without those that are undefined, name a
    /// source file or have no name. Of several with the same name the first counts.
    pub symbols: Shared<Symbol>,
}

/// A stated loop whose places are resolved to byte addresses.
#[derive(Drop)]
pub struct LoopAt {
    /// The address at which each iteration begins.
    pub head: u32,
    /// How often the head is reached at most each time the loop is entered: 1 to 1,000,000.
    pub bound: u32,
    /// Pairs of addresses; each pair covers the addresses from the first up to, but not including,
    /// the second. A pair may cover none.
    pub ranges: Items<(u32, u32)>,
}

/// A task whose places are resolved to byte addresses.
#[derive(Drop)]
pub struct TaskPlan {
    /// The address at which its jobs start.
    pub entry: u32,
    /// What x2 holds at a job's start.
    pub stack: u32,
    /// What x3 holds at a job's start.
    pub global: u32,
    /// Its stated loops in the order of the set, at most 64.
    pub loops: Items<LoopAt>,
}

/// A job of a script. Times are cycles from the run's start.
#[derive(Clone, Copy)]
pub struct ScriptJob {
    /// Its task, one of the set.
    pub task: Task,
    /// The cycle from which its deadline counts: 0 to 2^40.
    pub arrival: u64,
    /// The cycle from which it may run: 0 to 2^40; in a legal script at or after the arrival, and
    /// at most the jitter later.
    pub release: u64,
}

/// The input of a run.
#[derive(Drop)]
pub struct Script {
    /// How many cycles the run takes: 1 to 2^40.
    pub cycles: u64,
    /// The blocks that are cached at the start, each in its cache set; a later one replaces an
    /// earlier one.
    pub cache: Items<u32>,
    /// The jobs, at most 10,000. A job's number counts those of its task before it.
    pub jobs: Items<ScriptJob>,
}

/// The delay by which a window is computed: the multiset methods of Altmeyer, Davis and Maiza
/// (2012).
#[derive(Clone, Copy, PartialEq, Eq)]
pub enum Method {
    /// UCB-union multiset: the useful cache sets of the preempted tasks that the preempting task
    /// evicts.
    Ucb,
    /// ECB-union multiset: for each preempted task, its useful cache sets that the preempting task
    /// and those above it evict.
    Ecb,
}

/// The delay by which a refined window is computed, and the parts of the tasks that it counts: the
/// plain ones, or with persistent blocks those of the smaller bound.
#[derive(Clone, Copy, PartialEq, Eq)]
pub enum PointMethod {
    /// UCB-union multiset.
    Ucb,
    /// ECB-union multiset.
    Ecb,
    /// By program point: for each preempted task, the most cache sets that are useful at one of its
    /// nodes and that the preempting task and those above it evict.
    Point,
    /// UCB-union multiset, with persistent blocks.
    PersistentUcb,
    /// By program point, with persistent blocks.
    PersistentPoint,
}

/// What a window requires of a task: its execution bound, its evicting and its useful cache sets.
#[derive(Clone, Copy)]
pub struct Part {
    /// Its execution bound in cycles, without preemptions and switches: 0 to 2^41 as read, at most
    /// 2^40 as computed.
    pub bound: u64,
    /// The cache sets that its code accesses (evicting cache blocks, ECB), each below 512.
    pub evicting: SetBits<WORDS>,
    /// The cache sets that hold a block which may be used again (useful cache blocks, UCB; Lee et
    /// al. 1998), below 512.
    pub useful: SetBits<WORDS>,
}

/// What a certificate states about the cache before one node of a task's graph.
#[derive(Drop)]
pub struct NodeState {
    /// The node's number, below 16,384.
    pub node: u32,
    /// The cache sets whose block is surely cached before the node, each with its block, in
    /// strictly increasing order of cache sets.
    pub sure: Items<(u16, u32)>,
    /// The cache sets that are useful before the node.
    pub useful: SetBits<WORDS>,
}

/// What a certificate states about one task. Times are in cycles.
#[derive(Drop)]
pub struct TaskPart {
    /// The task's name, as in the set.
    pub name: Text,
    /// Its execution bound, its evicting and its useful cache sets.
    pub part: Part,
    /// The states of the listed nodes, in strictly increasing order of nodes; at most 16,384. All
    /// leaders are among them if the certificate is accepted.
    pub states: Items<NodeState>,
    /// For each node, by its number, the most cycles from it to the end of the iteration of the
    /// innermost region round it, or, outside of regions, to the end of the task: 0 to 2^40; at
    /// most 16,384 numbers.
    pub potentials: Items<u64>,
    /// For each region (a loop in one context), by its number, the potential of all its iterations
    /// and of what follows: 0 to 2^40; at most 16,384 numbers.
    pub loops: Items<u64>,
    /// The delay by which the window holds.
    pub method: Method,
    /// The most cycles from a job's release to its completion: 0 to 2^40 as read, 1 to the deadline
    /// minus the jitter if the certificate is accepted.
    pub window: u64,
    /// The most cycles from a job's arrival to its completion, the window plus the jitter: 0 to
    /// 2^41 as read.
    pub response: u64,
}

/// A claim of response times, which a checker decides from the task set and its code.
#[derive(Drop)]
pub struct Certificate {
    /// The platform for which it is claimed.
    pub platform: Platform,
    /// 1 to 32 tasks in priority order, the highest first.
    pub tasks: Items<TaskPart>,
}

/// What an analysis of a refined certificate states about one task. Times are in cycles.
#[derive(Drop)]
pub struct AnalysedTask {
    /// The task's name, as in the set.
    pub name: Text,
    /// Its execution bound, its evicting and its useful cache sets.
    pub part: Part,
    /// The states of the listed nodes, in strictly increasing order of nodes; at most 16,384. A
    /// state may give any block to any cache set: where the state before does not have it, the
    /// edge pays for one load.
    pub states: Items<NodeState>,
    /// For each node, by its number, its potential as in a certificate, with the loads for which
    /// edges pay: 0 to 2^40; at most 16,384 numbers.
    pub potentials: Items<u64>,
    /// For each region, by its number, its potential likewise: 0 to 2^40; at most 16,384 numbers.
    pub loops: Items<u64>,
}

/// One analysis of a refined certificate.
#[derive(Drop)]
pub struct Analysis {
    /// 1 to 32 tasks in priority order, the highest first.
    pub tasks: Items<AnalysedTask>,
}

/// The delay by which a window of a refined certificate holds.
#[derive(Clone, Copy)]
pub enum DelayMethod {
    /// The UCB-union multiset delay (Altmeyer, Davis and Maiza 2012).
    Ucb,
    /// The ECB-union multiset delay (the same).
    Ecb,
    /// The delay by program point: the ECB-union multiset delay with the useful cache sets of one
    /// node of a preempted task instead of those of all.
    Point,
}

/// What a refined certificate states about the response of one task. Times are in cycles.
#[derive(Drop)]
pub struct TaskWindow {
    /// The task's name, as in the set.
    pub name: Text,
    /// The analysis by whose parts of all tasks the window holds, below the number of analyses.
    pub analysis: u32,
    /// The delay by which the window holds.
    pub method: DelayMethod,
    /// The most cycles from a job's release to its completion: 0 to 2^40 as read, 1 to the deadline
    /// minus the jitter if the certificate is accepted.
    pub window: u64,
    /// The most cycles from a job's arrival to its completion, the window plus the jitter: 0 to
    /// 2^41 as read.
    pub response: u64,
}

/// A claim of response times by one or several analyses, which a checker decides from the task set
/// and its code.
#[derive(Drop)]
pub struct RefinedCertificate {
    /// The platform for which it is claimed.
    pub platform: Platform,
    /// 1 to 4 analyses.
    pub analyses: Items<Analysis>,
    /// 1 to 32 windows in priority order of their tasks, the highest first.
    pub windows: Items<TaskWindow>,
}

/// The result for a task whose window is refined. Times are in cycles.
#[derive(Clone, Copy)]
pub struct RefinedTask {
    /// Its execution bound by the parts of the method, at most 2^40.
    pub bound: u64,
    /// The most cycles from a job's release to its completion: 1 to the deadline minus the jitter.
    pub window: u64,
    /// The most cycles from a job's arrival to its completion: the window plus the jitter.
    pub response: u64,
    /// The first method that gives this window.
    pub method: PointMethod,
}

/// Why a cost cannot grow: it is the largest that a platform may have, or with the next one a task
/// has no window or exceeds the largest execution bound.
#[derive(Clone, Copy)]
pub enum Stop {
    /// It is 65,535 cycles, the largest that a platform may have.
    Limit,
    /// With the next cost this task is the first without a window.
    Window(Task),
    /// With the next cost this task is the first whose execution bound exceeds 2^40 cycles.
    Bound(Task),
}

/// The largest cost, in cycles, with which a task set is accepted, and what limits it.
#[derive(Clone, Copy)]
pub struct Slack {
    /// 0 to 65,535 cycles; None if the set is refused even with 0.
    pub greatest: Option<u32>,
    /// Why it is not larger; if there is none, why 0 is refused.
    pub stop: Stop,
}
