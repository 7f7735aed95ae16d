// Scripts over programs.
use crate::loading::{Loaded, PLATFORM, load};
use crate::programs::Programs;
use crpd_base::{Platform, Switching};
use std::alloc::Global;
use std::process::Abort;

// A script over programs: the number of cache sets, the cycles of a switch and where one may
// happen; its cycles, the blocks in the cache at the start, and its jobs by task, arrival and
// release.
#[derive(Clone, Copy)]
pub(crate) struct Case<'a> {
    pub(crate) programs: Programs,
    pub(crate) sets: u32,
    pub(crate) switch: u32,
    pub(crate) switching: Switching,
    pub(crate) cycles: u64,
    pub(crate) blocks: &'static [u32],
    pub(crate) jobs: &'a [(u8, u64, u64)],
}

impl Case<'_> {
    // Loads its programs.
    pub(crate) fn load(&self, rt: &impl Abort, alloc: Global) -> Box<Loaded> {
        let platform = Platform {
            sets: self.sets,
            switch: self.switch,
            switching: self.switching,
            ..PLATFORM
        };
        load(rt, alloc, &platform, self.programs.list())
    }
}

const ALONE: Case<'static> = Case {
    programs: Programs::Alone,
    sets: 4,
    switch: 5,
    switching: Switching::Cycle,
    cycles: 100,
    blocks: &[],
    jobs: &[],
};

const FIRST: Case<'static> = Case {
    jobs: &[(0, 0, 0)],
    ..ALONE
};

// The low job is interrupted in the last cycle of its first instruction.
pub(crate) const INTERRUPTED: Case<'static> = Case {
    programs: Programs::Pair,
    jobs: &[(1, 0, 0), (0, 15, 15)],
    ..ALONE
};

pub(crate) const BOTH: Case<'static> = Case {
    programs: Programs::Pair,
    jobs: &[(1, 0, 0), (0, 16, 16)],
    ..ALONE
};

const ALL_THREE: Case<'static> = Case {
    programs: Programs::Three,
    sets: 8,
    cycles: 1000,
    jobs: &[(2, 0, 0), (1, 31, 31), (0, 62, 62)],
    ..ALONE
};

const MANY: Case<'static> = Case {
    programs: Programs::Three,
    sets: 8,
    cycles: 1500,
    jobs: &[
        (2, 3, 3),
        (2, 0, 0),
        (0, 40, 40),
        (1, 40, 40),
        (2, 40, 40),
        (0, 41, 41),
        (0, 41, 41),
        (1, 300, 300),
        (0, 305, 305),
        (2, 1499, 1499),
        (0, 1500, 1500),
        (1, 2000, 2000),
    ],
    ..ALONE
};

const LATE_ROUNDS: Case<'static> = Case {
    programs: Programs::Rounds,
    cycles: 300,
    jobs: &[(1, 0, 0), (0, 18, 18), (0, 33, 33)],
    ..ALONE
};

// Scripts on which both machines agree.
pub(crate) static CASES: [Case<'static>; 56] = [
    Case {
        programs: Programs::Turns,
        jobs: &[(0, 0, 0)],
        ..ALONE
    },
    Case {
        programs: Programs::ShortTurns,
        jobs: &[(0, 0, 0)],
        ..ALONE
    },
    INTERRUPTED,
    Case {
        programs: Programs::Caller,
        jobs: &[(0, 0, 0)],
        ..ALONE
    },
    Case {
        programs: Programs::Loser,
        jobs: &[(0, 0, 0)],
        ..ALONE
    },
    Case {
        programs: Programs::CallTurns,
        jobs: &[(0, 0, 0)],
        ..ALONE
    },
    Case {
        cycles: 10,
        ..ALONE
    },
    Case {
        cycles: 16,
        jobs: &[(0, 0, 0)],
        ..ALONE
    },
    Case {
        cycles: 17,
        jobs: &[(0, 0, 0)],
        ..ALONE
    },
    Case {
        cycles: 17,
        blocks: &[256],
        jobs: &[(0, 0, 0)],
        ..ALONE
    },
    Case {
        cycles: 200,
        jobs: &[(0, 0, 0), (0, 99, 99)],
        ..ALONE
    },
    Case {
        cycles: 200,
        jobs: &[(0, 300, 300)],
        ..ALONE
    },
    Case {
        programs: Programs::Pair,
        switching: Switching::Instruction,
        jobs: &[(1, 0, 0), (0, 6, 6)],
        ..ALONE
    },
    Case {
        programs: Programs::Pair,
        switching: Switching::Instruction,
        jobs: &[(1, 0, 0), (0, 15, 15)],
        ..ALONE
    },
    Case {
        programs: Programs::Pair,
        jobs: &[(1, 0, 0), (0, 6, 6)],
        ..ALONE
    },
    // long stretches in which no job is ready
    Case {
        cycles: 1 << 40,
        jobs: &[(0, 1_000_000_000_000, 1_000_000_000_000)],
        ..ALONE
    },
    Case {
        programs: Programs::Pair,
        cycles: 1 << 40,
        jobs: &[
            (1, 0, 0),
            (0, 400_000_000_000, 400_000_000_000),
            (1, 549_755_813_888, 549_755_813_888),
            (0, 549_755_813_889, 549_755_813_889),
            (1, 1_099_511_627_775, 1_099_511_627_775),
            (0, 1 << 40, 1 << 40),
        ],
        ..ALONE
    },
    // scripts of one task
    FIRST,
    Case { jobs: &[], ..ALONE },
    Case { cycles: 0, ..FIRST },
    Case { cycles: 1, ..FIRST },
    Case { cycles: 5, ..FIRST },
    Case { cycles: 6, ..FIRST },
    Case {
        programs: Programs::Storer,
        ..FIRST
    },
    Case {
        programs: Programs::Storer,
        switch: 0,
        ..FIRST
    },
    // scripts of several tasks
    Case {
        programs: Programs::Breaker,
        jobs: &[(0, 0, 0), (1, 4, 4), (0, 30, 30)],
        ..ALONE
    },
    Case {
        programs: Programs::Breaker,
        switching: Switching::Instruction,
        jobs: &[(0, 20, 20), (1, 4, 4), (0, 30, 30)],
        ..ALONE
    },
    Case {
        programs: Programs::Spinner,
        cycles: 500,
        jobs: &[(1, 0, 0), (0, 50, 50), (0, 51, 51), (0, 52, 52)],
        ..ALONE
    },
    Case {
        programs: Programs::Spinner,
        switching: Switching::Instruction,
        cycles: 500,
        jobs: &[(1, 0, 0), (0, 50, 50), (0, 51, 51), (0, 52, 52)],
        ..ALONE
    },
    BOTH,
    Case {
        switching: Switching::Instruction,
        ..BOTH
    },
    Case { switch: 0, ..BOTH },
    Case {
        switch: 0,
        switching: Switching::Instruction,
        ..BOTH
    },
    Case {
        jobs: &[(1, 0, 0), (0, 0, 0)],
        ..BOTH
    },
    Case {
        jobs: &[(0, 7, 7), (0, 7, 7), (1, 7, 7), (1, 7, 7)],
        ..BOTH
    },
    Case {
        jobs: &[
            (0, 40, 40),
            (0, 0, 0),
            (0, 40, 40),
            (0, 100, 100),
            (0, 99, 99),
        ],
        ..BOTH
    },
    Case {
        jobs: &[
            (1, 0, 0),
            (0, 98, 98),
            (0, 99, 99),
            (0, 100, 100),
            (0, 300, 300),
        ],
        ..BOTH
    },
    ALL_THREE,
    Case {
        switching: Switching::Instruction,
        ..ALL_THREE
    },
    Case {
        switch: 0,
        ..ALL_THREE
    },
    Case {
        switch: 0,
        switching: Switching::Instruction,
        ..ALL_THREE
    },
    MANY,
    Case {
        switching: Switching::Instruction,
        ..MANY
    },
    Case { switch: 0, ..MANY },
    Case {
        switch: 0,
        switching: Switching::Instruction,
        ..MANY
    },
    // watches that break and some that do not, also with jobs that preempt
    Case {
        programs: Programs::LeftRounds,
        ..LATE_ROUNDS
    },
    Case {
        programs: Programs::LeftRounds,
        switching: Switching::Instruction,
        ..LATE_ROUNDS
    },
    Case {
        programs: Programs::LateHead,
        ..LATE_ROUNDS
    },
    Case {
        programs: Programs::LateHead,
        switching: Switching::Instruction,
        ..LATE_ROUNDS
    },
    LATE_ROUNDS,
    Case {
        switching: Switching::Instruction,
        ..LATE_ROUNDS
    },
    Case {
        switch: 0,
        ..LATE_ROUNDS
    },
    Case {
        switch: 0,
        switching: Switching::Instruction,
        ..LATE_ROUNDS
    },
    Case {
        cycles: 24,
        ..LATE_ROUNDS
    },
    Case {
        blocks: &[256, 512],
        ..LATE_ROUNDS
    },
    Case {
        switching: Switching::Instruction,
        jobs: &[
            (1, 0, 0),
            (1, 0, 0),
            (0, 9, 9),
            (1, 25, 25),
            (0, 25, 25),
            (1, 400, 400),
        ],
        ..LATE_ROUNDS
    },
];
