//! The places that a task set names.

ghost use Rattle.std.specs.Prelude.{◌≡◌, ◌≤◌, IfOk, IfSome};
ghost use Rattle.toml.specs.View.{view};
ghost use Rattle.set_reader.specs.Kinds as spec;

use crate::kinds::Kind;
use crpd_base::{Items, Place, Text};
use std::alloc::{AllocError, Global};
use toml::Value;

const LIMIT: u64 = 1 << 32;

/// The value of a digit.
fn digit(radix: u64, c: u8) -> Option<u64>
    ensures is { result ≡ spec.digit radix c }
    ensures bound { IfSome result (λ d. d ≤ 15) }
{
    match c {
        b'0'..=b'9' => Some(u64::from(c - b'0')),
        b'a'..=b'f' if radix == 16 => Some(u64::from(c - b'a') + 10),
        b'A'..=b'F' if radix == 16 => Some(u64::from(c - b'A') + 10),
        _ => None,
    }
}

/// The number that digits stand for, if it is below 2^32.
#[tactic(auto, unfolding(crate::specs::Kinds::digits))]
fn digits(radix: u64, text: &[u8]) -> Option<u32>
    requires { radix ≤ 16 }
    ensures { result ≡ spec.digits radix 0 text.now }
{
    let mut number = 0u64;
    for c in text {
        let next = number * radix + digit(radix, *c)?;
        if next >= LIMIT {
            return None;
        }
        number = next;
    }
    Some(number as u32)
}

fn number_of(radix: u64, most: usize, text: &[u8]) -> Option<u32>
    requires { radix ≤ 16 }
    ensures { result ≡ spec.digits_number radix most text.now }
{
    if 1 <= text.len() && text.len() <= most {
        digits(radix, text)
    } else {
        None
    }
}

/// The offset after a symbol and `+`.
#[tactic(auto, unfolding(crate::specs::Kinds::offset))]
fn offset(text: &[u8]) -> Option<u32>
    ensures { result ≡ spec.offset text.now }
{
    match text {
        [b'0', b'x', digits @ ..] => number_of(16, 8, digits),
        _ => number_of(10, 10, text),
    }
}

fn symbol(alloc: Global, name: &str, offset: u32) -> Result<Option<Place>, AllocError>
    ensures { IfOk result (λ p. p ≡ spec.symbol name.now offset) }
{
    if name.is_empty() {
        return Ok(None);
    }
    let name = Text::new(String::from_str(alloc, name)?);
    Ok(Some(Place::Symbol { name, offset }))
}

#[tactic(auto, unfolding(crate::specs::Kinds::place_named))]
fn place_named(alloc: Global, text: &str) -> Result<Option<Place>, AllocError>
    ensures { IfOk result (λ p. p ≡ spec.place_named text.now) }
{
    match text.split_once('+') {
        None => symbol(alloc, text, 0),
        Some((name, rest)) => match offset(rest.as_bytes()) {
            Some(offset) => symbol(alloc, name, offset),
            None => Ok(None),
        },
    }
}

/// A place: an address from 0 to 2^32 - 1, or a symbol as `symbol` or `symbol+offset`, with an
/// offset in bytes from 0 to 2^32 - 1.
pub struct AnyPlace;

impl Kind for AnyPlace {
    type Output = Place;

    ghost use Rattle.set_reader.specs.Kinds.{place};

    ghost meaning = { place };

    #[tactic(auto, unfolding(crate::specs::Kinds::place))]
    fn read(alloc: Global, value: &Value) -> Result<Option<Place>, AllocError> {
        match value {
            Value::Integer(z) => match u32::try_from(*z) {
                Ok(address) => Ok(Some(Place::Number(address))),
                Err(_) => Ok(None),
            },
            Value::String(text) => place_named(alloc, text.as_str()),
            _ => Ok(None),
        }
    }
}

/// The place where a task enters its code, as an option: None stands for an absent key.
pub struct EntryPlace;

impl Kind for EntryPlace {
    type Output = Option<Place>;

    ghost use Rattle.set_reader.specs.Reading.{entry_place};

    ghost meaning = { entry_place };

    fn read(alloc: Global, value: &Value) -> Result<Option<Option<Place>>, AllocError> {
        match AnyPlace::read(alloc, value)? {
            Some(place) => Ok(Some(Some(place))),
            None => Ok(None),
        }
    }
}

fn both(alloc: Global, from: &Value, to: &Value) -> Result<Option<(Place, Place)>, AllocError>
    ensures { IfOk result (λ p. p ≡ spec.place_pair (view from.now) (view to.now)) }
{
    let from = AnyPlace::read(alloc, from)?;
    let to = AnyPlace::read(alloc, to)?;
    Ok(from.zip(to))
}

/// A list of two places.
#[tactic(auto, using(crate::proofs::Pairs::two_places_of_two, crate::proofs::Pairs::two_places_of_others), unfolding(crate::specs::Kinds::range))]
fn range(alloc: Global, value: &Value) -> Result<Option<(Place, Place)>, AllocError>
    ensures { IfOk result (λ p. p ≡ spec.range (view value.now)) }
{
    match value.as_array() {
        Some(places) if places.len() == 2 => both(alloc, &places[0], &places[1]),
        _ => Ok(None),
    }
}

/// A list of ranges, each a list of two places.
pub struct CodeRanges;

impl Kind for CodeRanges {
    type Output = Items<(Place, Place)>;

    ghost use Rattle.text_keys.specs.TomlKeys.{listed};
    ghost use Rattle.set_reader.specs.Kinds.{range};

    ghost meaning = { listed range };

    fn read(alloc: Global, value: &Value) -> Result<Option<Items<(Place, Place)>>, AllocError> {
        let Value::Array(values) = value else {
            return Ok(None);
        };
        let mut found = Vec::new(alloc);
        for value in values {
            let Some(range) = range(alloc, value)? else {
                return Ok(None);
            };
            found.push(range)?;
        }
        Ok(Some(Items::new(found)))
    }
}
