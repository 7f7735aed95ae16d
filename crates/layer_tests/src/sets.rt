// Sets of cache sets.
use crpd_base::{SetBits, WORDS};

// The set of these numbers, without those of 512 and more.
pub(crate) fn sets_of(numbers: &[u16]) -> SetBits<WORDS> {
    let mut sets = SetBits::new();
    for number in numbers {
        if *number < 512 {
            sets.insert(*number);
        }
    }
    sets
}
