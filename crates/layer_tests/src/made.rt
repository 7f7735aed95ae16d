// Generated task sets, files and scripts.
use crpd_base::{Items, LoopSpec, Place, Script, ScriptJob, TaskSpec};
use gen_tasks::{Generated, generate};
use std::alloc::Global;
use std::process::Abort;

// A task's name, with which its file's name begins; its period, which is its deadline, and jitter;
// its loop's head, at which its range begins, bound and end; and the length of its file.
type Task = (&'static str, [u64; 2], [u32; 3], usize);

// A job's task, arrival and release.
type Job = (u8, u64, u64);

// A number, and the tasks and the jobs that are generated from it.
type Made = (u32, &'static [Task], &'static [Job]);

// The tasks and the jobs of a number, as a plain program in a different language generates them.
static MADE: [Made; 4] = [
    (
        0,
        &[
            ("t0", [100000, 1000], [65540, 15, 65660], 212),
            ("t1", [200000, 1000], [131748, 12, 131848], 192),
            ("t2", [300000, 0], [197028, 8, 197108], 172),
            ("t3", [400000, 3000], [262580, 14, 262676], 188),
            ("t4", [500000, 1000], [328452, 4, 328592], 232),
            ("t5", [600000, 3000], [393476, 12, 393576], 192),
            ("t6", [700000, 0], [459268, 3, 459424], 248),
            ("t7", [800000, 3000], [525124, 6, 525184], 152),
            ("t8", [900000, 2000], [589924, 13, 590092], 260),
            ("t9", [1000000, 2000], [656164, 15, 656328], 256),
            ("t10", [1100000, 1000], [721780, 5, 721916], 228),
            ("t11", [1200000, 3000], [787172, 4, 787312], 232),
            ("t12", [1300000, 0], [852100, 13, 852256], 248),
            ("t13", [1400000, 3000], [917652, 6, 917888], 328),
            ("t14", [1500000, 2000], [983140, 12, 983364], 316),
            ("t15", [1600000, 1000], [1049076, 6, 1049164], 180),
        ],
        &[
            (0, 0, 408),
            (0, 100000, 100978),
            (0, 200000, 200004),
            (0, 300000, 300316),
            (1, 0, 271),
            (1, 200000, 200843),
            (2, 0, 0),
            (2, 300000, 300000),
            (3, 0, 1018),
            (4, 0, 948),
            (5, 0, 1942),
            (6, 0, 0),
            (7, 0, 521),
            (8, 0, 691),
            (9, 0, 1451),
            (10, 0, 224),
            (11, 0, 2433),
            (12, 0, 0),
            (13, 0, 2590),
            (14, 0, 1252),
            (15, 0, 993),
        ],
    ),
    (
        1,
        &[
            ("t0", [100000, 3000], [65636, 5, 65860], 316),
            ("t1", [200000, 3000], [131252, 2, 131400], 240),
            ("t2", [300000, 3000], [196932, 6, 197188], 348),
            ("t3", [400000, 3000], [263108, 7, 263228], 212),
            ("t4", [500000, 2000], [327700, 14, 327800], 192),
            ("t5", [600000, 3000], [393572, 7, 393812], 332),
            ("t6", [700000, 1000], [459380, 8, 459572], 284),
            ("t7", [800000, 1000], [524964, 16, 525132], 260),
            ("t8", [900000, 3000], [590500, 13, 590692], 284),
            ("t9", [1000000, 0], [655652, 8, 655712], 152),
            ("t10", [1100000, 3000], [721860, 2, 721948], 180),
            ("t11", [1200000, 3000], [787316, 2, 787540], 316),
            ("t12", [1300000, 0], [852388, 5, 852532], 236),
            ("t13", [1400000, 2000], [917700, 14, 917944], 336),
            ("t14", [1500000, 1000], [983268, 4, 983400], 224),
            ("t15", [1600000, 2000], [1048820, 3, 1048952], 224),
        ],
        &[
            (0, 0, 664),
            (0, 100000, 102257),
            (0, 200000, 201243),
            (0, 300000, 301755),
            (1, 0, 624),
            (1, 200000, 201302),
            (2, 0, 1597),
            (2, 300000, 301986),
            (3, 0, 2735),
            (4, 0, 510),
            (5, 0, 1414),
            (6, 0, 257),
            (7, 0, 99),
            (8, 0, 1818),
            (9, 0, 0),
            (10, 0, 1130),
            (11, 0, 1335),
            (12, 0, 0),
            (13, 0, 1228),
            (14, 0, 529),
            (15, 0, 1756),
        ],
    ),
    (
        7,
        &[
            ("t0", [100000, 2000], [66244, 10, 66308], 156),
            ("t1", [200000, 2000], [131380, 11, 131440], 152),
            ("t2", [300000, 3000], [197396, 10, 197632], 328),
            ("t3", [400000, 2000], [263140, 16, 263188], 140),
            ("t4", [500000, 0], [328340, 12, 328468], 220),
            ("t5", [600000, 2000], [394180, 11, 394392], 304),
            ("t6", [700000, 1000], [458964, 6, 459036], 164),
            ("t7", [800000, 2000], [524964, 10, 525188], 316),
            ("t8", [900000, 3000], [589860, 5, 589940], 172),
            ("t9", [1000000, 0], [655668, 6, 655772], 196),
            ("t10", [1100000, 1000], [721268, 5, 721492], 316),
            ("t11", [1200000, 0], [787172, 13, 787396], 316),
            ("t12", [1300000, 3000], [852132, 9, 852176], 136),
            ("t13", [1400000, 2000], [917972, 10, 918216], 336),
            ("t14", [1500000, 2000], [983076, 2, 983224], 240),
            ("t15", [1600000, 0], [1049300, 8, 1049524], 316),
        ],
        &[
            (0, 0, 1595),
            (0, 100000, 101370),
            (0, 200000, 201608),
            (0, 300000, 301090),
            (1, 0, 206),
            (1, 200000, 200001),
            (2, 0, 2522),
            (2, 300000, 302790),
            (3, 0, 1268),
            (4, 0, 0),
            (5, 0, 35),
            (6, 0, 969),
            (7, 0, 646),
            (8, 0, 552),
            (9, 0, 0),
            (10, 0, 770),
            (11, 0, 0),
            (12, 0, 1263),
            (13, 0, 586),
            (14, 0, 225),
            (15, 0, 0),
        ],
    ),
    (
        2_147_483_647,
        &[
            ("t0", [100000, 2000], [66452, 9, 66656], 296),
            ("t1", [200000, 3000], [131220, 7, 131268], 140),
            ("t2", [300000, 1000], [197124, 10, 197252], 220),
            ("t3", [400000, 2000], [263092, 6, 263164], 164),
            ("t4", [500000, 1000], [328180, 9, 328356], 268),
            ("t5", [600000, 2000], [393364, 16, 393548], 276),
            ("t6", [700000, 0], [459172, 14, 459320], 240),
            ("t7", [800000, 1000], [525300, 5, 525512], 304),
            ("t8", [900000, 0], [590372, 5, 590516], 236),
            ("t9", [1000000, 0], [655652, 8, 655696], 136),
            ("t10", [1100000, 0], [721716, 8, 721900], 276),
            ("t11", [1200000, 2000], [787028, 15, 787084], 148),
            ("t12", [1300000, 0], [852820, 6, 852988], 260),
            ("t13", [1400000, 0], [917604, 6, 917836], 324),
            ("t14", [1500000, 0], [984020, 5, 984112], 184),
            ("t15", [1600000, 1000], [1049332, 16, 1049412], 172),
        ],
        &[
            (0, 0, 1433),
            (0, 100000, 101718),
            (0, 200000, 201785),
            (0, 300000, 300892),
            (1, 0, 2681),
            (1, 200000, 201402),
            (2, 0, 353),
            (2, 300000, 300711),
            (3, 0, 1055),
            (4, 0, 655),
            (5, 0, 1709),
            (6, 0, 0),
            (7, 0, 919),
            (8, 0, 0),
            (9, 0, 0),
            (10, 0, 0),
            (11, 0, 282),
            (12, 0, 0),
            (13, 0, 0),
            (14, 0, 0),
            (15, 0, 233),
        ],
    ),
];

// The file of task 4 of the number 1.
static FILE: [u8; 192] = [
    0x7f, 0x45, 0x4c, 0x46, 0x01, 0x01, 0x01, 0x00, 0x00, 0x00, 0x00, 0x00, 0x00, 0x00, 0x00, 0x00,
    0x02, 0x00, 0xf3, 0x00, 0x01, 0x00, 0x00, 0x00, 0x10, 0x00, 0x05, 0x00, 0x34, 0x00, 0x00, 0x00,
    0x00, 0x00, 0x00, 0x00, 0x00, 0x00, 0x00, 0x00, 0x34, 0x00, 0x20, 0x00, 0x01, 0x00, 0x00, 0x00,
    0x00, 0x00, 0x00, 0x00, 0x01, 0x00, 0x00, 0x00, 0x54, 0x00, 0x00, 0x00, 0x10, 0x00, 0x05, 0x00,
    0x10, 0x00, 0x05, 0x00, 0x6c, 0x00, 0x00, 0x00, 0x6c, 0x00, 0x00, 0x00, 0x05, 0x00, 0x00, 0x00,
    0x04, 0x00, 0x00, 0x00, 0x93, 0x02, 0xe0, 0x00, 0x13, 0x03, 0x13, 0x00, 0x13, 0x03, 0x13, 0x00,
    0x13, 0x03, 0x13, 0x00, 0x13, 0x03, 0x13, 0x00, 0x13, 0x03, 0x13, 0x00, 0x13, 0x03, 0x13, 0x00,
    0x13, 0x03, 0x13, 0x00, 0x13, 0x03, 0x13, 0x00, 0x13, 0x03, 0x13, 0x00, 0x13, 0x03, 0x13, 0x00,
    0x13, 0x03, 0x13, 0x00, 0x13, 0x03, 0x13, 0x00, 0x13, 0x03, 0x13, 0x00, 0x13, 0x03, 0x13, 0x00,
    0x13, 0x03, 0x13, 0x00, 0x13, 0x03, 0x13, 0x00, 0x13, 0x03, 0x13, 0x00, 0x13, 0x03, 0x13, 0x00,
    0x13, 0x03, 0x13, 0x00, 0x13, 0x03, 0x13, 0x00, 0x13, 0x03, 0x13, 0x00, 0x13, 0x03, 0x13, 0x00,
    0x13, 0x03, 0x13, 0x00, 0x93, 0x82, 0xf2, 0xff, 0xe3, 0x90, 0x02, 0xfa, 0x73, 0x00, 0x00, 0x00,
];

fn is_number(place: &Place, want: u32) -> bool {
    match place {
        Place::Number(number) => *number == want,
        Place::Symbol { .. } => false,
    }
}

fn is_loop(stated: &LoopSpec, want: [u32; 3]) -> bool {
    let [head, bound, end] = want;
    let [(first, last)] = stated.ranges.as_slice() else {
        return false;
    };
    is_number(&stated.head, head)
        && stated.bound == bound
        && is_number(first, head)
        && is_number(last, end)
}

fn is_task(task: &TaskSpec, want: &Task) -> bool {
    let &(name, [period, jitter], stated, _) = want;
    let [only] = task.loops.as_slice() else {
        return false;
    };
    task.name.as_str() == name
        && task.file.as_str().strip_suffix(".elf") == Some(name)
        && task.period == period
        && task.deadline == period
        && task.jitter == jitter
        && is_loop(only, stated)
}

// Compares the tasks, and the lengths of their files.
fn compare_tasks(rt: &impl Abort, tasks: &[TaskSpec], files: &[Items<u8>], want: &[Task]) {
    assert!(rt; tasks.len() == want.len() && files.len() == want.len());
    for i in 0..want.len() {
        assert!(rt; is_task(&tasks[i], &want[i]) && files[i].len() == want[i].3);
    }
}

fn is_job(job: &ScriptJob, want: &Job) -> bool {
    (job.task.0, job.arrival, job.release) == *want
}

fn compare_script(rt: &impl Abort, script: &Script, want: &[Job]) {
    let jobs = script.jobs.as_slice();
    assert!(rt; script.cycles == 500_000 && script.cache.is_empty() && jobs.len() == want.len());
    for i in 0..want.len() {
        assert!(rt; is_job(&jobs[i], &want[i]));
    }
}

// What is generated from a number below 2^31.
fn made_of(rt: &impl Abort, alloc: Global, number: u32) -> Box<Generated> {
    assert!(rt; number <= 2_147_483_647);
    let made = generate(alloc, number).ok().expect(rt, "a made set");
    Box::new(alloc, made).expect(rt, "memory")
}

fn compare_made(rt: &impl Abort, alloc: Global, row: &Made) {
    let &(number, tasks, jobs) = row;
    let made = made_of(rt, alloc, number);
    compare_tasks(rt, made.set.tasks.as_slice(), made.files.as_slice(), tasks);
    compare_script(rt, &made.script, jobs);
}

#[test]
fn tasks_and_jobs(rt: HostRuntime) {
    for row in &MADE {
        compare_made(&rt, rt.alloc(), row);
    }
}

fn compare_bytes(rt: &impl Abort, files: &[Items<u8>], bytes: &[u8]) {
    assert!(rt; files.len() > 4);
    assert!(rt; files[4].as_slice() == bytes);
}

// Compares the bytes of the file of task 4 of the number 1.
fn compare_file(rt: &impl Abort, alloc: Global, bytes: &[u8]) {
    let made = made_of(rt, alloc, 1);
    compare_bytes(rt, made.files.as_slice(), bytes);
}

#[test]
fn the_bytes_of_a_file(rt: HostRuntime) {
    compare_file(&rt, rt.alloc(), &FILE);
}
