// Texts and lists that a contract sees as a list. `Text` and `Items` wrap a `String` or a `Vec` and
// give it back without taking memory.
ghost use Rattle.std.specs.Prelude.{◌≡◌, ◌==◌, ◌<◌, ◌^◌, List, ℕ, Some, string_bytes, length, IfOk};
ghost use Rattle.std.specs.Prelude.{slice_index_or};
ghost use Rattle.std.specs.Slice.{IsItemAt};
ghost use Rattle.std.specs.Slice.Iter.{iter_rest, iter_steps};
ghost use Rattle.std.specs.Iterator.Adapters.{IterYieldsInOrder};
ghost use Rattle.std.specs.Iterator.Runs.{EveryRun, ItemsMapTo};

use std::alloc::AllocError;
use std::marker::Model;
use std::ops::Index;
use std::rc::RcSlice;
use std::{fmt, slice};

/// A text. A contract sees the list of its UTF-8 bytes.
#[derive(Debug, Drop)]
pub struct Text {
    text: String,
}

impl Model for Text {
    ghost Value = { List ℕ };

    ghost view = { λ t. string_bytes t.text };
}

impl fmt::Display for Text {
    ghost output = { λ t. Some t };

    fn fmt<W: fmt::Write>(&self, f: &mut fmt::Formatter<W>) -> fmt::Result {
        f.write_str(self.text.as_str())
    }
}

impl Text {
    /// The text of a string. In constant time; it takes no memory.
    pub fn new(text: String) -> Self
        ensures { result ≡ string_bytes text }
    {
        Text { text }
    }

    /// The text as a slice. In constant time; it takes no memory.
    pub fn as_str(&self) -> &str
        ensures { result.now ≡ self.now }
    {
        self.text.as_str()
    }

    /// The string from which it was made. In constant time; it takes no memory.
    pub fn into_string(self) -> String
        ensures { string_bytes result ≡ self }
    {
        self.text
    }
}

/// A list. A contract sees the list of its elements.
#[derive(Drop)]
pub struct Items<T> {
    list: Vec<T>,
}

impl<T> Model for Items<T> {
    ghost Value = { List T };

    ghost view = { λ l. l.list.items };
}

impl<T> Items<T> {
    /// The list of a vector's elements. In constant time; it takes no memory.
    pub fn new(list: Vec<T>) -> Self
        ensures { result ≡ list.items }
    {
        Items { list }
    }

    /// How many elements there are. In constant time; it takes no memory.
    pub fn len(&self) -> usize
        ensures { result ≡ length self.now }
    {
        self.list.len()
    }

    /// Whether there is no element. In constant time; it takes no memory.
    pub fn is_empty(&self) -> bool
        ensures { result ≡ (length self.now == 0) }
    {
        self.list.is_empty()
    }

    /// The element at a place counted from 0, None beyond the last one. In constant time; it takes
    /// no memory.
    pub fn get(&self, place: usize) -> Option<&T>
        ensures { IsItemAt self.now place result }
    {
        self.list.get(place)
    }

    /// The elements in order. In constant time; it takes no memory.
    pub fn iter(&self) -> slice::Iter<'_, T>
        ensures rest { iter_rest result ≡ self.now }
        ensures len { length (iter_rest result) ≡ length self.now }
        ensures runs { IterYieldsInOrder T }
    {
        self.list.iter()
    }

    /// The elements as a slice. In constant time; it takes no memory.
    pub fn as_slice(&self) -> &[T]
        ensures { result.now ≡ self.now }
    {
        self.list.as_slice()
    }

    /// The vector from which it was made. In constant time; it takes no memory.
    pub fn into_vec(self) -> Vec<T>
        ensures { result.items ≡ self }
    {
        self.list
    }
}

impl<T> Index<usize> for Items<T> {
    type Output = T;

    ghost can_index = { λ l i. i < length l };

    ghost index_gives = { λ l i x. x ≡ slice_index_or l i x };

    /// The element at a place below the number of elements, counted from 0. In constant time; it
    /// takes no memory.
    fn index(&self, place: usize) -> &T {
        &self.list[place]
    }
}

impl<'a, T> IntoIterator for &'a Items<T> {
    type Item = &'a T;

    type IntoIter = slice::Iter<'a, T>;

    ghost into_iter_gives = { λ l it. (iter_rest it ≡ l.now) × (length (iter_rest it) < 2 ^ 64)
        × EveryRun (iter_steps {A = T}) (λ p. ItemsMapTo p (λ x. x.now) (iter_rest p.from)) };

    /// The elements in order. In constant time; it takes no memory.
    fn into_iter(self) -> slice::Iter<'a, T> {
        self.iter()
    }
}

/// A list whose copies share its memory. A contract sees the list of its elements.
#[derive(Drop)]
pub struct Shared<T> {
    list: RcSlice<T>,
}

impl<T> Model for Shared<T> {
    ghost use Rattle.std.specs.Prelude.{List};
    ghost use Rattle.std.specs.Rc.{rc_slice_items};

    ghost Value = { List T };

    ghost view = { λ s. rc_slice_items s.list };
}

impl<T: Drop> Shared<T> {
    /// The list of a vector's elements. In constant time; out of memory is the only error.
    pub fn new(list: Vec<T>) -> Result<Self, AllocError>
        ensures { IfOk result (λ s. s ≡ list.items) }
    {
        let list = RcSlice::from_vec(list)?;
        Ok(Shared { list })
    }

    /// The same list in the same memory. In constant time; it takes no memory, and fails only at
    /// 2^64 - 1 copies.
    pub fn share(&self) -> Result<Self, AllocError>
        ensures { IfOk result (λ s. s ≡ self.now) }
    {
        let list = self.list.clone()?;
        Ok(Shared { list })
    }

    /// The elements as a slice. In constant time; it takes no memory.
    pub fn as_slice(&self) -> &[T]
        ensures { result.now ≡ self.now }
    {
        self.list.as_slice()
    }
}
