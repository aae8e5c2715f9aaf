// A short text as a sink.
ghost use Rattle.std.specs.Prelude.{◌≡◌, ◌<◌, [], Some, length};
ghost use Rattle.lift_base.specs.Outside.{Puts};
ghost use Rattle.cert_text.specs.Terms.{short_write, short_kept};
ghost use Rattle.cert_text.specs.declared.short_text.TheConstants.{ROOM};

use lift_base::{Put, Sink};
use std::marker::Model;

/// How many bytes a text has at most.
const ROOM: usize = 64;

/// Takes at most `ROOM` bytes, and fails where no room is left. It takes no memory but its own array.
#[derive(Drop)]
pub(crate) struct ShortText {
    bytes: [u8; ROOM],
    len: usize,
    faults: u64,
}

impl Model for ShortText {
    ghost use Rattle.std.specs.Prelude.{◌≤◌, take};
    ghost use Rattle.cert_text.specs.Terms.{ShortData};
    ghost use Rattle.cert_text.specs.declared.short_text.TheConstants.{ROOM};

    ghost Value = { ShortData };

    ghost view = { λ t. record { taken = take t.len t.bytes; faults = t.faults } };

    ghost invariant = { λ t. t.len ≤ ROOM };
}

impl ShortText {
    /// Nothing is taken yet.
    pub fn new() -> Self
        ensures { result ≡ record { taken = []; faults = 0 } }
    {
        ShortText {
            bytes: [0u8; ROOM],
            len: 0,
            faults: 0,
        }
    }

    /// What was taken so far.
    pub fn as_slice(&self) -> &[u8]
        ensures { result.now ≡ self.now.taken }
    {
        &self.bytes[..self.len]
    }
}

impl Sink for ShortText {
    ghost taken = { λ t. Some t.taken };

    ghost faults = { λ t. t.faults };

    fn write(&mut self, piece: &[u8]) -> Put
        requires { 0 < length piece.now }
        ensures does { Puts (λ t. Some t.taken) (λ t. t.faults) self.old self.new result piece.now }
        ensures answer { result ≡ short_write ROOM self.old (length piece.now) }
        ensures after { self.new ≡ short_kept ROOM self.old piece.now }
    {
        let free = ROOM - self.len;
        if free == 0 {
            self.faults = self.faults.saturating_add(1);
            return Put::Failed;
        }
        let count = piece.len().min(free);
        let end = self.len + count;
        self.bytes[self.len..end].copy_from_slice(&piece[..count]);
        self.len = end;
        Put::Took(count)
    }
}
