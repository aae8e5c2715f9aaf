//! Rows as texts of bytes, and numbers for them: the same for rows that are the same.

ghost use Rattle.std.specs.Prelude.{◌≡◌, ◌⊎◌, ◌<◌, ◌+◌, ◌∷◌, ◌++◌, [], length, slice_index_or, IfOk, OnOk};
ghost use Rattle.lift_names.specs.Names.{names_limit};
ghost use Rattle.lift_lump.specs.Comparing.{term_text, size_text, target_text, poly_text, row_text};

use lift_model::Entry;
use lift_names::Names;
use lift_poly::MultiAffine;
use std::alloc::{AllocError, Global};

/// Adds a term.
fn add_term(text: &mut Vec<u8>, set: u16, coefficient: i128) -> Result<(), AllocError>
    ensures { OnOk result (text.new.items ≡ text.old.items ++ term_text (set, coefficient)) }
{
    text.extend_from_slice(&set.to_le_bytes())?;
    text.extend_from_slice(&coefficient.to_le_bytes())?;
    Ok(())
}

/// Adds how many there are.
fn add_size(text: &mut Vec<u8>, size: usize) -> Result<(), AllocError>
    ensures { OnOk result (text.new.items ≡ text.old.items ++ size_text size) }
{
    text.extend_from_slice(&(size as u64).to_le_bytes())?;
    Ok(())
}

/// Adds a target.
fn add_target(text: &mut Vec<u8>, target: u32) -> Result<(), AllocError>
    ensures { OnOk result (text.new.items ≡ text.old.items ++ target_text target) }
{
    text.extend_from_slice(&target.to_le_bytes())?;
    Ok(())
}

/// Adds a polynomial.
fn add_poly(text: &mut Vec<u8>, poly: &MultiAffine) -> Result<(), AllocError>
    ensures { OnOk result (text.new.items ≡ text.old.items ++ poly_text poly.now) }
{
    add_size(text, poly.len())?;
    for index in 0..poly.len() {
        let (set, coefficient) = poly.term(index);
        add_term(text, set, coefficient)?;
    }
    Ok(())
}

/// The text of a row.
pub(crate) fn text_of(alloc: Global, row: &[Entry]) -> Result<Vec<u8>, AllocError>
    ensures { IfOk result (λ text. text.items ≡ row_text row.now) }
{
    let mut text = Vec::new(alloc);
    for entry in row {
        add_target(&mut text, entry.target)?;
        add_poly(&mut text, &entry.poly)?;
    }
    Ok(text)
}

/// The place of a text among those that were met, which it is added to if it is new.
pub(crate) fn place_of(texts: &mut Names, text: &[u8]) -> Result<u32, AllocError>
    requires few { length texts.old + 1 < names_limit }
    ensures inside { IfOk result (λ place. place < length texts.new) }
    ensures there { IfOk result (λ place. slice_index_or texts.new place [] ≡ text.now) }
    ensures texts { OnOk result ((texts.new ≡ texts.old) ⊎ (texts.new ≡ texts.old ++ text.now ∷ [])) }
{
    if let Some(place) = texts.find(text) {
        return Ok(place);
    }
    let place = texts.len();
    texts.push(text)?;
    Ok(place)
}
