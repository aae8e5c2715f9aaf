// The bytes that a sink holds back.
ghost use Rattle.std.specs.Prelude.{◌≡◌, ◌+◌, ◌≤◌, ◌++◌, [], length, drop};
ghost use Rattle.lift_base.specs.declared.held.TheConstants.{CAPACITY};

use std::marker::Model;

/// How many bytes are held at most.
pub const CAPACITY: usize = 8192;

/// Bytes in a row, at most `CAPACITY`, that take no memory but their own array.
#[derive(Drop)]
pub struct Held {
    bytes: [u8; CAPACITY],
    len: usize,
}

impl Model for Held {
    ghost use Rattle.std.specs.Prelude.{List, ℕ, take, ◌≤◌};
    ghost use Rattle.lift_base.specs.declared.held.TheConstants.{CAPACITY};

    ghost Value = { List ℕ };

    ghost view = { λ h. take h.len h.bytes };

    ghost invariant = { λ h. h.len ≤ CAPACITY };
}

impl Held {
    /// Nothing is held.
    pub fn new() -> Self
        ensures { result ≡ [] }
    {
        Held {
            bytes: [0u8; CAPACITY],
            len: 0,
        }
    }

    /// How many bytes are held.
    pub fn len(&self) -> usize
        ensures { result ≡ length self.now }
    {
        self.len
    }

    /// How many more bytes can be held.
    pub fn room(&self) -> usize
        ensures { result + length self.now ≡ CAPACITY }
    {
        CAPACITY - self.len
    }

    /// What is held.
    pub fn as_slice(&self) -> &[u8]
        ensures { result.now ≡ self.now }
    {
        &self.bytes[..self.len]
    }

    /// Holds the piece too, behind the rest. It is one copy.
    pub fn push_slice(&mut self, piece: &[u8])
        requires { length self.old + length piece.now ≤ CAPACITY }
        ensures { self.new ≡ self.old ++ piece.now }
    {
        let end = self.len + piece.len();
        self.bytes[self.len..end].copy_from_slice(piece);
        self.len = end;
    }

    /// Lets the first bytes go. It moves the rest to the front.
    pub fn remove_first(&mut self, count: usize)
        requires { count ≤ length self.old }
        ensures { self.new ≡ drop count self.old }
    {
        self.bytes.copy_within(count..self.len, 0);
        self.len -= count;
    }
}
