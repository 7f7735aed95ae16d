// The delays of small sets of shares.
ghost use Rattle.std.specs.Prelude.{◌≡◌};

use crpd_base::SetBits;
use delay_count::{Share, gamma_ecb, gamma_ucb};

fn set_of(numbers: &[u16]) -> SetBits<1> {
    let mut set = SetBits::new();
    for s in numbers {
        if *s < 64 {
            set.insert(*s);
        }
    }
    set
}

fn share(count: u8, numbers: &[u16]) -> Share<1>
    ensures { result.count ≡ count }
{
    Share {
        count: u128::from(count),
        useful: set_of(numbers),
    }
}

// The delays of two affected tasks, by jobs that evict the sets 1 to 4.
fn delays(jobs: u64, first: u8, second: u8) -> (u128, u128) {
    let lower = [share(first, &[1, 2]), share(second, &[2, 3, 4, 5])];
    let evicting = set_of(&[1, 2, 3, 4]);
    (
        gamma_ucb(10, jobs, &evicting, &lower),
        gamma_ecb(10, jobs, &evicting, &lower),
    )
}

// The number of jobs that evict, the jobs of two affected tasks, and the delays.
static DELAYS: [(u64, u8, u8, (u128, u128)); 6] = [
    (1, 1, 1, (40, 30)),
    (3, 1, 1, (50, 50)),
    (2, 5, 1, (60, 50)),
    (2, 0, 5, (60, 60)),
    (7, 2, 4, (160, 160)),
    (0, 3, 3, (0, 0)),
];

#[test]
fn delays_of_two_tasks(rt: HostRuntime) {
    for &(jobs, first, second, want) in &DELAYS {
        assert!(rt; delays(jobs, first, second) == want);
    }
}
