// A text in memory.
ghost use Rattle.std.specs.Prelude.{◌≡◌, ◌≤◌, ◌<◌, [], Some, IfOk, vec_len, vec_capacity};

use lift_base::{Put, Sink};
use std::alloc::{AllocError, Global};

/// Keeps the bytes that it takes, up to `ROOM`, in memory that it has from its making. It fails only
/// where a byte comes that finds no room.
#[derive(Drop)]
pub(crate) struct LimitedText<const ROOM: usize> {
    bytes: Vec<u8>,
    faults: u64,
    ghost within: { vec_len bytes ≤ ROOM },
    ghost reserved: { ROOM ≤ vec_capacity bytes },
    ghost full: { 0 < faults → vec_len bytes ≡ ROOM },
}

impl<const ROOM: usize> LimitedText<ROOM> {
    /// Nothing is kept yet.
    pub fn make(alloc: Global) -> Result<Self, AllocError>
        ensures { IfOk result (λ text. (text.bytes.items ≡ []) × (text.faults ≡ 0)) }
    {
        let bytes = Vec::with_capacity(alloc, ROOM)?;
        Ok(LimitedText { bytes, faults: 0 })
    }

    /// What was taken.
    pub fn into_bytes(self) -> Vec<u8>
        ensures { result.items ≡ self.entry.bytes.items }
    {
        let LimitedText { bytes, faults: _ } = self;
        bytes
    }
}

impl<const ROOM: usize> Sink for LimitedText<ROOM> {
    ghost taken = { λ text. Some text.bytes.items };

    ghost faults = { λ text. text.faults };

    fn write(&mut self, piece: &[u8]) -> Put {
        let count = piece.len().min(ROOM - self.bytes.len());
        if count == 0 {
            self.faults = self.faults.saturating_add(1);
            return Put::Failed;
        }
        self.bytes.extend_from_slice(&piece[..count]).unwrap();
        Put::Took(count)
    }
}
