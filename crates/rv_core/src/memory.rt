// The data memory.
ghost use Rattle.std.specs.Prelude.{◌≡◌, ◌↔◌, ℕ, false, ◌+◌, ◌*◌, ◌<◌, ◌≤◌, ◌^◌, ◌-◌, ◌%◌, List};
ghost use Rattle.std.specs.Prelude.{[], length, slice_index, take, EachIndex, IfNone, IfSome};
ghost use Rattle.std.specs.Prelude.{IsTrue, OnOk, OnErr};
ghost use Rattle.std.specs.BTreeMap.{ContainsKey};
ghost use Rattle.std.specs.List.{filter};
ghost use Rattle.std.specs.Ordering.{nat_cmp};
ghost use Rattle.rv_core.specs.Memory.{IsMemory, ByteAfterPut, PutKeepsMemory, BytesTellMemory};
ghost use Rattle.rv_core.specs.Memory.{ByteAfterClear, byte as byte_at, put_all, put_byte};
ghost use Rattle.rv_core.specs.Memory.{clear_bytes, memory_half, memory_word};
ghost use Rattle.rv_core.specs.Inner.Memory.{put_bytes};
ghost use Rattle.rv_core.specs.Inner.Pages.{is_not_between, little_endian_number, page_word};
ghost use Rattle.rv_core.specs.Inner.Pages.{page_with_value};

use crpd_base::Memory;
use std::alloc::Global;
use std::collections::BTreeMap;
use std::marker::Model;

/// 2^32 bytes, of which those that are not 0 are stored, in pages of 64.
///
/// Contracts see the bytes that are not 0, sorted by their addresses.
#[derive(Drop)]
pub struct DataMemory {
    pages: BTreeMap<u32, [u8; 64]>,
}

impl Model for DataMemory {
    ghost use Rattle.std.specs.Prelude.{ℕ, List};
    ghost use Rattle.rv_core.specs.Memory.{Memory};
    ghost use Rattle.rv_core.specs.Inner.Pages.{memory_of, ArePages};

    ghost Value = { Memory };

    ghost view = { λ m. memory_of m.pages.entries };

    ghost invariant = { λ m. ArePages 0 m.pages.entries };
}

/// The little-endian number in the four bytes of a page from a place on.
fn word_of(page: &[u8; 64], at: usize) -> u32
    requires { at + 4 ≤ 64 }
    ensures { result ≡ page_word page.now at }
{
    let low = page[at] as u32 + 256 * page[at + 1] as u32;
    let high = page[at + 2] as u32 + 256 * page[at + 3] as u32;
    low + 65_536 * high
}

/// Writes the low `count` bytes of a value to a page, from a place on.
fn write(page: &mut [u8; 64], at: usize, value: u32, count: u32)
    requires { at + count ≤ 64 }
    ensures { page.new ≡ page_with_value count page.old at value }
{
    if count > 0 {
        page[at] = (value % 256) as u8;
        write(page, at + 1, value / 256, count - 1);
    }
}

/// Copies bytes to a page, from a place on.
fn copy(page: &mut [u8; 64], at: usize, bytes: &[u8])
    requires { at + length bytes.now ≤ 64 }
    ensures { page.new ≡ page_with_value (length bytes.now) page.old at
        (little_endian_number bytes.now) }
{
    page[at..at + bytes.len()].copy_from_slice(bytes);
}

/// Whether all bytes are 0.
fn are_zero(bytes: &[u8]) -> bool
    ensures { IsTrue result ↔ EachIndex bytes.now (λ k. slice_index bytes.now k ≡ 0) }
{
    bytes.iter().all(|byte| *byte == 0)
}

/// The number of a stored page in a range, if there is one.
fn page_between(pages: &BTreeMap<u32, [u8; 64]>, first: u32, last: u32) -> Option<u32>
    requires { first ≤ last }
    ensures found { IfSome result
        (λ k. (is_not_between first last k ≡ false) × ContainsKey nat_cmp pages.now k) }
    ensures none { IfNone result
        (filter (λ page. is_not_between first last page.0) pages.now.entries ≡ pages.now.entries) }
{
    let (number, _) = pages.range(first..last).next()?;
    Some(*number)
}

/// Removes the pages of a range one by one, in time logarithmic in the pages for each.
fn remove_pages(pages: &mut BTreeMap<u32, [u8; 64]>, first: u32, last: u32)
    requires { first ≤ last }
    ensures { pages.new.entries
        ≡ filter (λ page. is_not_between first last page.0) pages.old.entries }
{
    while let Some(number) = page_between(pages, first, last) {
        pages.remove(&number);
    }
}

impl DataMemory {
    /// A memory whose bytes are all 0. In constant time; it takes no memory.
    pub fn new(alloc: Global) -> Self
        ensures { result ≡ [] }
    {
        DataMemory {
            pages: BTreeMap::new(alloc),
        }
    }

    /// The byte at an address, in time logarithmic in the stored pages. It takes no memory.
    pub fn byte(&self, address: u32) -> u8
        ensures value { result ≡ byte_at self.now address }
        ensures memory { IsMemory self.now }
    {
        match self.pages.get(&(address / 64)) {
            Some(page) => page[address as usize % 64],
            None => 0,
        }
    }

    /// Changes one byte, in time logarithmic in the stored pages. After an error the memory is
    /// unchanged. Memory is allocated only if a byte that was 0 becomes different.
    pub fn put(&mut self, address: u32, byte: u8) -> Result<(), Memory>
        ensures ok { OnOk result (self.new ≡ put_byte self.old address byte) }
        ensures err { OnErr result (self.new ≡ self.old) }
        ensures stored { OnErr result ((byte_at self.old address ≡ 0) × (1 ≤ byte)) }
    {
        self.store_within(address, byte as u32, 1)
    }

    /// Stores the low `count` bytes of a value from an address on, all of them in one page. After
    /// an error the memory is unchanged. Memory is allocated only for a page that is not stored
    /// yet.
    fn store_within(&mut self, address: u32, value: u32, count: u32) -> Result<(), Memory>
        requires { address % 64 + count ≤ 64 }
        ensures ok { OnOk result (self.new ≡ put_bytes count self.old address value) }
        ensures err { OnErr result (self.new ≡ self.old) }
        ensures stored { OnErr result ((byte_at self.old address ≡ 0) × (1 ≤ value)) }
    {
        let at = address as usize % 64;
        if let Some(page) = self.pages.get_mut(&(address / 64)) {
            write(page, at, value, count);
            return Ok(());
        }
        if value == 0 {
            return Ok(());
        }
        let mut page = [0; 64];
        write(&mut page, at, value, count);
        match self.pages.insert(address / 64, page) {
            Ok(_) => Ok(()),
            Err(_) => Err(Memory),
        }
    }

    /// Stores bytes from an address on, all of them in one page. After an error the memory is
    /// unchanged. Memory is allocated only for a page that is not stored yet.
    fn put_within(&mut self, address: u32, bytes: &[u8]) -> Result<(), Memory>
        requires { address % 64 + length bytes.now ≤ 64 }
        ensures ok { OnOk result (self.new ≡ put_all self.old address bytes.now) }
        ensures err { OnErr result (self.new ≡ self.old) }
    {
        let number = address / 64;
        let at = address as usize % 64;
        if let Some(page) = self.pages.get_mut(&number) {
            copy(page, at, bytes);
            return Ok(());
        }
        if are_zero(bytes) {
            return Ok(());
        }
        let mut page = [0; 64];
        copy(&mut page, at, bytes);
        match self.pages.insert(number, page) {
            Ok(_) => Ok(()),
            Err(_) => Err(Memory),
        }
    }

    /// Stores bytes from an address on, all of them below 2^32. Linear in the bytes, with one
    /// look-up for each of their pages, which is logarithmic in the stored pages. After an error a
    /// proper prefix of them is stored, which may be empty. Memory is allocated only for a page
    /// that is not stored yet and has a byte that is not 0.
    pub fn put_all(&mut self, address: u32, bytes: &[u8]) -> Result<(), Memory>
        requires { address + length bytes.now ≤ 2 ^ 32 }
        ensures ok { OnOk result (self.new ≡ put_all self.old address bytes.now) }
        ensures err { OnErr result
            ((n : ℕ) × (n < length bytes.now)
            × (self.new ≡ put_all self.old address (take n bytes.now))) }
    {
        let mut from = 0;
        while from < bytes.len() {
            let start = address as usize + from;
            let to = bytes.len().min(from + (64 - start % 64));
            self.put_within(start as u32, &bytes[from..to])?;
            from = to;
        }
        Ok(())
    }

    /// Sets `count` bytes from an address on to 0, all of them in one page.
    fn zero(&mut self, address: u32, count: u32)
        requires { address % 64 + count ≤ 64 }
        ensures { self.new ≡ clear_bytes self.old address count }
    {
        if let Some(page) = self.pages.get_mut(&(address / 64)) {
            write(page, address as usize % 64, 0, count);
        }
    }

    /// Sets the bytes of a range of pages to 0, in time logarithmic in the stored pages for each of
    /// them that is stored.
    fn clear_pages(&mut self, first: u32, last: u32)
        requires { first ≤ last }
        ensures { self.new ≡ clear_bytes self.old (64 * first) (64 * last - 64 * first) }
    {
        remove_pages(&mut self.pages, first, last);
    }

    /// Sets `length` bytes from an address on to 0, all of them below 2^32. In time logarithmic in
    /// the stored pages, and the same again for each page that is removed, whatever the length. It
    /// takes no memory.
    pub fn clear(&mut self, address: u32, length: u64)
        requires { address + length ≤ 2 ^ 32 }
        ensures { self.new ≡ clear_bytes self.old address length }
    {
        let end = address as u64 + length;
        let first = (address as u64 + 63) / 64;
        let last = end / 64;
        if last < first {
            self.zero(address, length as u32);
            return;
        }
        self.clear_pages(first as u32, last as u32);
        self.zero(address, (64 * first - address as u64) as u32);
        if end > 64 * last {
            self.zero((64 * last) as u32, (end - 64 * last) as u32);
        }
    }

    /// Stores the low `count` bytes of a value from an address on, which wraps at 2^32. After an
    /// error the memory is unchanged.
    pub(crate) fn store(&mut self, address: u32, value: u32, count: u32) -> Result<(), Memory>
        requires { count ≤ 4 }
        ensures ok { OnOk result (self.new ≡ put_bytes count self.old address value) }
        ensures err { OnErr result (self.new ≡ self.old) }
    {
        if address % 64 + count <= 64 {
            self.store_within(address, value, count)
        } else {
            self.store_across(address, value, count)
        }
    }

    /// The same if the bytes may be in two pages. A byte that becomes 0 is stored after the others,
    /// since it takes no memory.
    fn store_across(&mut self, address: u32, value: u32, count: u32) -> Result<(), Memory>
        requires { count ≤ 4 }
        ensures ok { OnOk result (self.new ≡ put_bytes count self.old address value) }
        ensures err { OnErr result (self.new ≡ self.old) }
    {
        if count == 0 {
            return Ok(());
        }
        let low = (value % 256) as u8;
        let next = address.wrapping_add(1);
        let before = self.byte(address);
        if low == 0 {
            self.store_across(next, value / 256, count - 1)?;
            return self.put(address, 0);
        }
        self.put(address, low)?;
        match self.store_across(next, value / 256, count - 1) {
            Ok(()) => Ok(()),
            Err(Memory) => {
                let _ = self.put(address, before);
                Err(Memory)
            }
        }
    }

    /// The little-endian number in the two bytes from an address on, which wraps at 2^32.
    pub(crate) fn half(&self, address: u32) -> u32
        ensures value { result ≡ memory_half self.now address }
        ensures below { result < 2 ^ 16 }
    {
        let low = self.byte(address) as u32;
        let high = self.byte(address.wrapping_add(1)) as u32;
        low + 256 * high
    }

    /// The little-endian number in the four bytes from an address on, which wraps at 2^32.
    pub(crate) fn whole(&self, address: u32) -> u32
        ensures { result ≡ memory_word self.now address }
    {
        if address % 64 > 60 {
            return self.half(address) + 65_536 * self.half(address.wrapping_add(2));
        }
        match self.pages.get(&(address / 64)) {
            Some(page) => word_of(page, address as usize % 64),
            None => 0,
        }
    }
}

/// A law: a write changes one byte and no other. In constant time.
pub fn byte_after_put()
    ensures { ByteAfterPut }
{}

/// A law: a write keeps a memory sorted. In constant time.
pub fn put_keeps_memory()
    ensures { PutKeepsMemory }
{}

/// A law: clearing sets the bytes of a range to 0 and changes no other. In constant time.
pub fn byte_after_clear()
    ensures { ByteAfterClear }
{}

/// A law: memories with the same bytes are equal. In constant time.
pub fn bytes_tell_memory()
    ensures { BytesTellMemory }
{}
