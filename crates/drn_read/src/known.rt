// The values that were read last, found by their texts.
ghost use Rattle.std.specs.Prelude.{◌≡◌, ◌≢◌, ◌≤◌, ℕ, List, [], Some, Err, IfSome, IfOk, length, slice_get};
ghost use Rattle.std.specs.Option.{option_map};
ghost use Rattle.lift_model.specs.Valid.{most_parameters};
ghost use Rattle.drn_read.specs.Sections.{Placeholder};
ghost use Rattle.drn_read.specs.States.{named_value};
ghost use Rattle.drn_read.specs.Shown.{rest};
ghost use Rattle.drn_read.specs.Recent.{AreKnown, text_and_value, IsKnown};

use crate::cursor::Cursor;
use crate::entry::named_value;
use crate::error::DrnCause;
use crate::placeholders::Placeholders;
use crate::shared::SharedValue;
use lift_names::Names;
use std::alloc::{AllocError, Global};

/// How many values are kept.
const MOST_VALUES: usize = 256;

/// How many bytes a text may have whose value is kept.
const MOST_BYTES: usize = 256;

/// A text, and the value that it has.
#[derive(Drop)]
pub(crate) struct Known {
    pub text: Vec<u8>,
    pub value: SharedValue,
}

/// Values that were read, and for each hash of a text the place where its value is looked for.
#[derive(Drop)]
pub(crate) struct KnownValues {
    pub values: Vec<Known>,
    pub places: [u8; 256],
}

/// A hash of a text.
fn hash_of(text: &[u8]) -> u8 {
    let mut hash: u32 = 0;
    for byte in text {
        hash = hash.rotate_left(5) ^ u32::from(*byte);
    }
    hash.wrapping_mul(0x9E37_79B1).to_be_bytes()[0]
}

/// The value of a text as one to be kept.
fn to_keep(alloc: Global, text: &[u8], value: &SharedValue) -> Result<Known, AllocError>
    ensures text { IfOk result (λ known. known.text.items ≡ text.now) }
    ensures value { IfOk result (λ known. known.value ≡ value.now) }
{
    Ok(Known {
        text: Vec::from_slice(alloc, text)?,
        value: value.share()?,
    })
}

impl KnownValues {
    /// No value was read yet. It takes no memory.
    pub fn new(alloc: Global) -> Self
        ensures { result.values.items ≡ [] }
    {
        KnownValues {
            values: Vec::new(alloc),
            places: [0; 256],
        }
    }

    /// No value is kept any more.
    pub fn clear(&mut self)
        ensures { self.new.values.items ≡ [] }
    {
        self.values.clear();
    }

    /// The value at a place, where it is that of this text.
    fn find(&self, place: usize, text: &[u8]) -> Option<&SharedValue>
        ensures { IfSome result (λ value. option_map text_and_value (slice_get self.now.values.items place)
            ≡ Some (text.now, value.now)) }
    {
        let known = self.values.get(place)?;
        if known.text.as_slice() == text {
            Some(&known.value)
        } else {
            None
        }
    }

    /// One more value that is kept, in place of another where there are many.
    fn keep(&mut self, hash: u8, known: Known) -> Result<(), AllocError>
        ensures { (names : List (List ℕ)) (placeholders : List Placeholder)
            → AreKnown names placeholders self.old.values.items → IsKnown names placeholders known
            → AreKnown names placeholders self.new.values.items }
    {
        if self.values.len() < MOST_VALUES {
            self.places[hash as usize] = self.values.len() as u8;
            self.values.push(known)?;
        } else {
            let place = self.places[hash as usize] as usize;
            self.values[place] = known;
        }
        Ok(())
    }

    /// The value that is left of a transition's line. It is read only where it isn't one of those that
    /// are kept.
    pub fn named_value(
        &mut self,
        alloc: Global,
        value: Cursor<'_>,
        names: &Names,
        placeholders: &Placeholders,
    ) -> Result<SharedValue, DrnCause>
        requires names { length names.now ≤ most_parameters }
        requires known { AreKnown names.now placeholders.now self.old.values.items }
        ensures value { result ≢ Err DrnCause.Memory
            → result ≡ named_value names.now placeholders.now (rest value.entry) }
        ensures known { AreKnown names.now placeholders.now self.new.values.items }
    {
        let text = value.rest();
        if text.len() > MOST_BYTES {
            return named_value(alloc, value, names, placeholders);
        }
        let hash = hash_of(text);
        let place = self.places[hash as usize] as usize;
        if let Some(value) = self.find(place, text) {
            return Ok(value.share()?);
        }
        let read = named_value(alloc, value, names, placeholders)?;
        let known = to_keep(alloc, text, &read)?;
        self.keep(hash, known)?;
        Ok(read)
    }
}
