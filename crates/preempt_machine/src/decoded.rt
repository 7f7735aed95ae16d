// A table of decoded words, so that the words of a loop are decoded once.
ghost use Rattle.std.specs.Prelude.{◌≡◌, IfSome};
ghost use Rattle.rv_decode.specs.Range.{HasFieldsInRange};
ghost use Rattle.rv_decode.specs.Table.{ins_of_word};

use crpd_base::Memory;
use rv_decode::{Ins, decode};
use std::alloc::Global;
use std::marker::Model;

/// The number of places in the table. Words whose addresses differ by a multiple of four times this
/// number share a place.
const PLACES: usize = 2048;

/// A word, and the instruction that it encodes.
#[derive(Clone, Copy)]
struct Decoding {
    word: u32,
    meaning: Option<Ins>,
}

/// The table: at each place the last word that was decoded there, with its instruction.
///
/// Contracts do not mention it, since it changes no result.
#[derive(Drop)]
pub(crate) struct Decoded {
    places: Vec<Decoding>,
}

impl Model for Decoded {
    ghost use Rattle.preempt_machine.specs.Inner.Decodings.{AreDecoded, Nothing, nothing};

    ghost Value = { Nothing };

    ghost view = { λ d. nothing };

    ghost invariant = { λ d. AreDecoded d.places.items };
}

impl Decoded {
    pub(crate) fn new(alloc: Global) -> Result<Self, Memory> {
        let blank = Decoding {
            word: 0,
            meaning: decode(0),
        };
        let places = vec![in alloc; blank; PLACES]?;
        Ok(Decoded { places })
    }

    /// The instruction that a word at an address encodes. It is decoded only if its place in the
    /// table holds a different word.
    pub(crate) fn meaning(&mut self, word: u32, address: u32) -> Option<Ins>
        ensures row { result ≡ ins_of_word word }
        ensures in_range { IfSome result HasFieldsInRange }
    {
        let at = (address / 4) as usize % self.places.len();
        let kept = self.places[at];
        if kept.word == word {
            return kept.meaning;
        }
        let meaning = decode(word);
        self.places[at] = Decoding { word, meaning };
        meaning
    }
}
