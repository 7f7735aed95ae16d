// A table of decoded instructions by address, so that each is looked up and decoded once.
ghost use Rattle.std.specs.Prelude.{◌≡◌, IfOk, IfSome, IsTrue};
ghost use Rattle.crpd_base.specs.declared.data.Platform.{Platform};
ghost use Rattle.rv_decode.specs.Range.{HasFieldsInRange};
ghost use Rattle.flow_watch.specs.Quiet.{IsArrival};
ghost use Rattle.preempt_machine.specs.Machine.{ins_at};
ghost use Rattle.preempt_machine.specs.Running.{system_by};
ghost use Rattle.preempt_machine.specs.Inner.Addresses.{decoded_cost, AreCosts};
ghost use Rattle.preempt_machine.specs.Inner.Addresses.{AreDecodedAddresses, IsDecoded};

use code_map::CodeMap;
use crpd_base::{Memory, Platform};
use flow_watch::stays_in_frame;
use icache::Geometry;
use rv_decode::{Ins, cost, decode};
use std::alloc::Global;

/// The number of places in the table. Addresses that differ by a multiple of four times this number
/// share a place.
const PLACES: usize = 4096;

/// The cycles of an instruction, for a hit and for a miss of its fetch. The `taken` fields are for
/// a next address that is not the address plus four.
#[derive(Clone, Copy)]
pub(crate) struct Costs {
    hit: u64,
    hit_taken: u64,
    miss: u64,
    miss_taken: u64,
}

/// An address with its block and cache set, and the instruction at it (`None` if a fetch there
/// faults). `stays` says whether the instruction stays in its frame.
#[derive(Clone, Copy)]
pub(crate) struct AtAddress {
    pub(crate) address: u32,
    pub(crate) block: u32,
    pub(crate) set: u16,
    pub(crate) stays: bool,
    pub(crate) costs: Costs,
    pub(crate) meaning: Option<Ins>,
}

/// The table: at each place the instruction at the last address that was looked up there.
#[derive(Drop)]
pub(crate) struct AddressTable {
    pub(crate) places: Vec<AtAddress>,
}

/// The instruction at an address, or `None` if a fetch there faults.
#[tactic(auto, unfolding(crate::specs::Machine::ins_at))]
fn instruction(code: &CodeMap, address: u32) -> Option<Ins>
    ensures is { (platform : Platform) → result ≡ ins_at (system_by platform code.now) address }
    ensures in_range { IfSome result HasFieldsInRange }
{
    match decode(code.word(address)?) {
        Some(Ins::Ebreak) => None,
        found => found,
    }
}

impl Costs {
    /// The cycles, by whether the fetch missed and whether the next address is not the address plus
    /// four.
    pub(crate) fn cycles(&self, missed: bool, taken: bool) -> u64
        ensures { result ≡ decoded_cost self.now missed taken }
    {
        match (missed, taken) {
            (false, false) => self.hit,
            (false, true) => self.hit_taken,
            (true, false) => self.miss,
            (true, true) => self.miss_taken,
        }
    }
}

/// The cycles of an instruction, or 0 if there is none.
fn costs_of(platform: &Platform, meaning: &Option<Ins>) -> Costs
    ensures { IfSome meaning.now (AreCosts platform.now result) }
{
    match meaning {
        Some(ins) => Costs {
            hit: cost(platform, ins, false, false),
            hit_taken: cost(platform, ins, false, true),
            miss: cost(platform, ins, true, false),
            miss_taken: cost(platform, ins, true, true),
        },
        None => Costs {
            hit: 0,
            hit_taken: 0,
            miss: 0,
            miss_taken: 0,
        },
    }
}

/// Whether an instruction stays in its frame. False if there is none.
fn stays(meaning: &Option<Ins>) -> bool
    ensures { IsTrue result → IfSome meaning.now IsArrival }
{
    match meaning {
        Some(ins) => stays_in_frame(ins),
        None => false,
    }
}

/// Looks up and decodes an address.
fn at_address(code: &CodeMap, geometry: &Geometry, address: u32) -> AtAddress
    ensures is { IsDecoded geometry.now.platform code.now result }
    ensures address { result.address ≡ address }
{
    let block = geometry.block(address);
    let meaning = instruction(code, address);
    AtAddress {
        address,
        block,
        set: geometry.set(block),
        stays: stays(&meaning),
        costs: costs_of(&geometry.platform, &meaning),
        meaning,
    }
}

impl AddressTable {
    /// A table for the addresses of a code map. Out of memory is the only error.
    pub(crate) fn new(alloc: Global, code: &CodeMap, geometry: &Geometry) -> Result<Self, Memory>
        ensures { IfOk result (λ decoded.
            AreDecodedAddresses geometry.now.platform code.now decoded.places.items) }
    {
        let blank = at_address(code, geometry, 0);
        match vec![in alloc; blank; PLACES] {
            Ok(places) => Ok(AddressTable { places }),
            Err(_) => Err(Memory),
        }
    }

    /// The decoded instruction at an address. It is looked up only if its place holds another
    /// address.
    #[inline(always)]
    pub(crate) fn find(&mut self, code: &CodeMap, geometry: &Geometry, address: u32) -> AtAddress
        requires { AreDecodedAddresses geometry.now.platform code.now self.old.places.items }
        ensures is { IsDecoded geometry.now.platform code.now result }
        ensures address { result.address ≡ address }
        ensures decoded { AreDecodedAddresses geometry.now.platform code.now self.new.places.items }
    {
        let at = (address / 4) as usize % PLACES;
        let kept = self.places[at];
        if kept.address == address {
            return kept;
        }
        let found = at_address(code, geometry, address);
        self.places[at] = found;
        found
    }
}
