//! Lists of numbers.

ghost use Rattle.std.specs.Prelude.{◌≡◌, replicate, slice_index_or, IfOk};

use std::alloc::{AllocError, Global};

/// So many zeros.
pub(crate) fn zeros(alloc: Global, count: usize) -> Result<Vec<u32>, AllocError>
    ensures { IfOk result (λ list. list.items ≡ replicate count 0) }
{
    vec![in alloc; 0u32; count]
}

/// The number at a place, and 0 past the end.
pub(crate) fn number_at(numbers: &[u32], place: usize) -> u32
    ensures { result ≡ slice_index_or numbers.now place 0 }
{
    numbers.get(place).copied().unwrap_or(0)
}

/// Writes a number at a place, and nothing past the end.
pub(crate) fn put(numbers: &mut [u32], place: usize, number: u32) {
    if let Some(entry) = numbers.get_mut(place) {
        *entry = number;
    }
}
