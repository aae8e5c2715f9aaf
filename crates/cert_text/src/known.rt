// The terms that were read last, found by their texts.
ghost use Rattle.std.specs.Prelude.{◌≡◌, ◌≤◌, ℕ, [], Ok, Some, IfSome, IfOk, slice_get};
ghost use Rattle.std.specs.Option.{option_map};
ghost use Rattle.lift_model.specs.Valid.{most_parameters};
ghost use Rattle.line_text.specs.Words.{words};
ghost use Rattle.line_text.specs.Shown.{Says};
ghost use Rattle.cert_text.specs.Shown.{terms_of};
ghost use Rattle.cert_text.specs.Recent.{AreKnown, IsKnown, text_and_terms};

use crate::entry_line::terms_of;
use lift_model::SharedPoly;
use line_text::{TextCause, Words};
use std::alloc::{AllocError, Global};

/// How many texts are kept.
const MOST_TEXTS: usize = 256;

/// How many bytes a text may have that is kept.
const MOST_BYTES: usize = 256;

/// A text, and the polynomial that it writes.
#[derive(Drop)]
pub(crate) struct Known {
    pub text: Vec<u8>,
    pub poly: SharedPoly,
}

/// Texts that were read, and for each hash of a text the place where it is looked for.
#[derive(Drop)]
pub(crate) struct KnownTerms {
    pub texts: Vec<Known>,
    pub places: [u8; 256],
}

/// A hash of a text.
fn hash_of(text: &[u8]) -> u8 {
    let mut hash: u32 = 0;
    for byte in text {
        hash = hash.rotate_left(5) ^ u32::from(*byte);
    }
    hash.wrapping_mul(0x9E37_79B1).to_be_bytes()[0]
}

impl KnownTerms {
    /// No text was read yet. It takes no memory.
    pub fn new(alloc: Global) -> Self
        ensures { result.texts.items ≡ [] }
    {
        KnownTerms {
            texts: Vec::new(alloc),
            places: [0; 256],
        }
    }

    /// The polynomial at a place, where it is that of this text.
    fn find(&self, place: usize, text: &[u8]) -> Option<&SharedPoly>
        ensures { IfSome result (λ poly. option_map text_and_terms (slice_get self.now.texts.items place)
            ≡ Some (text.now, poly.now)) }
    {
        let known = self.texts.get(place)?;
        if known.text.as_slice() == text {
            Some(&known.poly)
        } else {
            None
        }
    }

    /// One more text that is kept, in place of another where there are many.
    fn keep(&mut self, hash: u8, known: Known) -> Result<(), AllocError>
        ensures { (parameters : ℕ) → AreKnown parameters self.old.texts.items → IsKnown parameters known
            → AreKnown parameters self.new.texts.items }
    {
        if self.texts.len() < MOST_TEXTS {
            self.places[hash as usize] = self.texts.len() as u8;
            self.texts.push(known)?;
        } else {
            let place = self.places[hash as usize] as usize;
            self.texts[place] = known;
        }
        Ok(())
    }

    /// One more text that is kept with the polynomial that it writes.
    fn keep_text(
        &mut self,
        alloc: Global,
        hash: u8,
        text: &[u8],
        poly: &SharedPoly,
    ) -> Result<(), AllocError>
        ensures { (parameters : ℕ) → AreKnown parameters self.old.texts.items
            → terms_of parameters (words text.now) ≡ Ok (Ok poly.now) → AreKnown parameters self.new.texts.items }
    {
        let known = Known {
            text: Vec::from_slice(alloc, text)?,
            poly: poly.share()?,
        };
        self.keep(hash, known)
    }

    /// The polynomial of a text's terms, which is read and kept.
    #[inline(never)]
    fn read_terms(
        &mut self,
        alloc: Global,
        hash: u8,
        text: &[u8],
        parameters: u32,
    ) -> Result<Result<SharedPoly, TextCause>, TextCause>
        requires parameters { parameters ≤ most_parameters }
        requires known { AreKnown parameters self.old.texts.items }
        ensures value { Says (λ read. read) result (terms_of parameters (words text.now)) }
        ensures known { AreKnown parameters self.new.texts.items }
    {
        let read = terms_of(alloc, Words::of(text), parameters)?;
        if let Ok(poly) = &read {
            self.keep_text(alloc, hash, text, poly)?;
        }
        Ok(read)
    }

    /// The polynomial of a text's terms. It is read only where it isn't one of those that are kept.
    #[inline(always)]
    fn text_terms(
        &mut self,
        alloc: Global,
        text: &[u8],
        parameters: u32,
    ) -> Result<Result<SharedPoly, TextCause>, TextCause>
        requires parameters { parameters ≤ most_parameters }
        requires known { AreKnown parameters self.old.texts.items }
        ensures value { Says (λ read. read) result (terms_of parameters (words text.now)) }
        ensures known { AreKnown parameters self.new.texts.items }
    {
        let hash = hash_of(text);
        let place = self.places[hash as usize] as usize;
        if let Some(poly) = self.find(place, text) {
            return Ok(Ok(poly.share()?));
        }
        self.read_terms(alloc, hash, text, parameters)
    }

    /// The polynomial that words write by its terms, or the cause that is told behind the form of all.
    #[inline(always)]
    pub fn terms(
        &mut self,
        alloc: Global,
        words: Words,
        parameters: u32,
    ) -> Result<Result<SharedPoly, TextCause>, TextCause>
        requires parameters { parameters ≤ most_parameters }
        requires known { AreKnown parameters self.old.texts.items }
        ensures value { Says (λ read. read) result (terms_of parameters words.entry) }
        ensures known { AreKnown parameters self.new.texts.items }
    {
        match words.text() {
            Some(text) if text.len() <= MOST_BYTES => self.text_terms(alloc, text, parameters),
            _ => terms_of(alloc, words, parameters),
        }
    }
}
