// Sets of programs for runs.
use crate::loading::{ONE, Program};
use crate::words::{BACK, CALL_LOOP, CALLS, LINES, LOOP, LOST};

const LOW: Program<'static> = ONE;

pub(crate) const HIGH: Program<'static> = Program {
    name: "high",
    start: 0x2000,
    ..ONE
};

static PAIR: [Program<'static>; 2] = [HIGH, LOW];

static THREE: [Program<'static>; 3] = [
    Program {
        name: "high",
        start: 0x3010,
        words: &LINES,
        ..ONE
    },
    Program {
        name: "middle",
        start: 0x2010,
        words: &BACK,
        ..ONE
    },
    Program {
        start: 0x1030,
        words: &BACK,
        ..ONE
    },
];

// A loop of three iterations, whose bound is three.
const TURNS: Program<'static> = Program {
    words: &LOOP,
    loops: &[(0x1004, 3, (0x1004, 0x100C))],
    ..ONE
};

// The same loop, whose bound is two.
const SHORT_TURNS: Program<'static> = Program {
    loops: &[(0x1004, 2, (0x1004, 0x100C))],
    ..TURNS
};

// Two calls of one function, from a function that saves x1 on its stack.
const CALLER: Program<'static> = Program {
    words: &CALLS,
    stack: 0x8000,
    ..ONE
};

// The same without the store of x1.
const LOSER: Program<'static> = Program {
    words: &LOST,
    ..CALLER
};

const CALL_TURNS: Program<'static> = Program {
    words: &CALL_LOOP,
    loops: &[(0x1004, 2, (0x1004, 0x1010))],
    ..ONE
};

// A store and a load, and a word that is not an instruction.
const STORER: Program<'static> = Program {
    words: &[
        0x0050_0293, // addi x5,x0,5
        0x0051_2023, // sw x5,0(x2)
        0x0001_2303, // lw x6,0(x2)
        0,
    ],
    stack: 0x8000,
    ..ONE
};

// EBREAK in the high task.
static BREAKER: [Program<'static>; 2] = [
    Program {
        words: &[
            0x0010_0293, // addi x5,x0,1
            0x0010_0073, // ebreak
        ],
        ..HIGH
    },
    LOW,
];

// A jump to itself in the low task.
static SPINNER: [Program<'static>; 2] = [
    HIGH,
    Program {
        words: &[0x0000_006F], // jal x0,0
        ..LOW
    },
];

// A loop of three iterations whose bound is two, below a higher task.
static ROUNDS: [Program<'static>; 2] = [HIGH, SHORT_TURNS];

// The same loop, which its branch leaves, so that each iteration enters it again.
static LEFT_ROUNDS: [Program<'static>; 2] = [
    HIGH,
    Program {
        loops: &[(0x1004, 1, (0x1004, 0x1008))],
        ..TURNS
    },
];

// A loop whose head is its branch, and whose range begins and ends there.
static LATE_HEAD: [Program<'static>; 2] = [
    HIGH,
    Program {
        loops: &[(0x1008, 2, (0x1008, 0x100C))],
        ..TURNS
    },
];

static ALONE: [Program<'static>; 1] = [LOW];

static ONE_TURNS: [Program<'static>; 1] = [TURNS];

static ONE_SHORT_TURNS: [Program<'static>; 1] = [SHORT_TURNS];

static ONE_CALLER: [Program<'static>; 1] = [CALLER];

static ONE_LOSER: [Program<'static>; 1] = [LOSER];

static ONE_CALL_TURNS: [Program<'static>; 1] = [CALL_TURNS];

static ONE_STORER: [Program<'static>; 1] = [STORER];

// The programs of a set, in priority order.
#[derive(Clone, Copy)]
pub(crate) enum Programs {
    Alone,
    Pair,
    Three,
    Turns,
    ShortTurns,
    Caller,
    Loser,
    CallTurns,
    Storer,
    Breaker,
    Spinner,
    Rounds,
    LeftRounds,
    LateHead,
}

impl Programs {
    pub(crate) fn list(self) -> &'static [Program<'static>] {
        match self {
            Programs::Alone => &ALONE,
            Programs::Pair => &PAIR,
            Programs::Three => &THREE,
            Programs::Turns => &ONE_TURNS,
            Programs::ShortTurns => &ONE_SHORT_TURNS,
            Programs::Caller => &ONE_CALLER,
            Programs::Loser => &ONE_LOSER,
            Programs::CallTurns => &ONE_CALL_TURNS,
            Programs::Storer => &ONE_STORER,
            Programs::Breaker => &BREAKER,
            Programs::Spinner => &SPINNER,
            Programs::Rounds => &ROUNDS,
            Programs::LeftRounds => &LEFT_ROUNDS,
            Programs::LateHead => &LATE_HEAD,
        }
    }
}
