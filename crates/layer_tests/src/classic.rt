// The plain union delays of small lists of sets.
use crate::sets::sets_of;
use delay_classic::{classic_ecb, classic_ucb};

// The number of jobs that evict the sets 1 to 4, the useful sets of two affected tasks, and the
// delays by both methods.
static DELAYS: [(u64, &[u16], &[u16], u128, u128); 6] = [
    (1, &[1, 2], &[3, 4], 40, 20),
    (1, &[1, 2], &[2, 3, 4, 5], 40, 30),
    (3, &[1, 2], &[2, 3], 90, 60),
    (2, &[], &[5, 6, 7], 0, 0),
    (0, &[1], &[2], 0, 0),
    (
        u64::MAX,
        &[1],
        &[],
        184_467_440_737_095_516_150,
        184_467_440_737_095_516_150,
    ),
];

#[test]
fn delays_of_two_tasks(rt: HostRuntime) {
    let evicting = sets_of(&[1, 2, 3, 4]);
    for &(jobs, first, second, ucb, ecb) in &DELAYS {
        let lower = [sets_of(first), sets_of(second)];
        assert!(rt; classic_ucb(10, jobs, &evicting, &lower) == ucb);
        assert!(rt; classic_ecb(10, jobs, &evicting, &lower) == ecb);
    }
}
