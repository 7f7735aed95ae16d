// The numbers of a set, in order.
ghost use Rattle.std.specs.Prelude.{◌≡◌, ℕ, ◌*◌, ◌<◌, ◌≤◌, MatchOption};
ghost use Rattle.std.specs.Iterator.{item_count};
ghost use Rattle.crpd_base.specs.Sets.{member, numbers_below, GivesFirst};
ghost use Rattle.crpd_base.specs.Inner.NumbersLeft.{IsLeastFrom};

use crate::set_bits::SetBits;
use std::marker::Model;

/// The smallest number of a set at or above `start`.
fn least_from<const W: usize>(set: &SetBits<W>, start: usize) -> Option<usize>
    requires { 64 * W ≤ 65536 }
    ensures { MatchOption result
        ((t : ℕ) → start ≤ t → t < 64 * W → member set.now t ≡ 0)
        (IsLeastFrom set.now start (64 * W)) }
{
    let mut from = start;
    while from < 64 * W {
        let left = set.word(from / 64) >> (from % 64);
        if left != 0 {
            return Some(from + left.trailing_zeros() as usize);
        }
        from = (from / 64 + 1) * 64;
    }
    None
}

/// The remaining numbers of a set, in increasing order. Contracts see the list of them.
#[derive(Drop)]
pub struct Members<'a, const W: usize> {
    set: &'a SetBits<W>,
    from: usize,
    ghost few: { 64 * W ≤ 65536 },
}

impl<'a, const W: usize> Model for Members<'a, W> {
    ghost use Rattle.std.specs.Prelude.{List, ℕ, ◌*◌, ◌-◌};
    ghost use Rattle.crpd_base.specs.Inner.NumbersLeft.{members_from};

    ghost Value = { List ℕ };

    ghost view = { λ m. members_from m.set.now m.from (64 * W - m.from) };
}

impl<'a, const W: usize> Members<'a, W> {
    /// All numbers of a set.
    pub(crate) fn of(set: &'a SetBits<W>) -> Self
        requires { 64 * W ≤ 65536 }
        ensures { result ≡ numbers_below set.now (64 * W) }
    {
        Members { set, from: 0 }
    }
}

impl<const W: usize> Iterator for Members<'_, W> {
    type Item = u16;

    ghost next_gives = { GivesFirst };

    ghost remaining = { item_count (λ left. left) };

    fn next(&mut self) -> Option<u16> {
        let Some(number) = least_from(self.set, self.from) else {
            self.from = 64 * W;
            return None;
        };
        self.from = number + 1;
        Some(number as u16)
    }
}
