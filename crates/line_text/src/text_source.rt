// A text in memory, as a source.
ghost use Rattle.std.specs.Prelude.{◌≡◌, ◌<◌, ◌≤◌, List, ℕ, Some, drop, length, min, take};
ghost use Rattle.lift_base.specs.Outside.{Reads};

use lift_base::{Got, Source};
use std::marker::Model;

/// Gives the bytes of a text that stands in memory, as many a call as the buffer holds, and never fails.
#[derive(Drop)]
pub struct TextSource<'t> {
    rest: &'t [u8],
}

impl<'t> Model for TextSource<'t> {
    ghost Value = { List ℕ };

    ghost view = { λ s. s.rest.now };
}

impl<'t> TextSource<'t> {
    /// The whole text is left.
    pub fn new(text: &'t [u8]) -> Self
        ensures { result ≡ text.now }
    {
        TextSource { rest: text }
    }
}

// Puts the bytes of the piece at the front of the buffer.
fn copy_to_front(buf: &mut [u8], piece: &[u8])
    requires { length piece.now ≤ length buf.old }
    ensures { take (length piece.now) buf.new ≡ piece.now }
{
    buf[..piece.len()].copy_from_slice(piece);
}

impl<'t> Source for TextSource<'t> {
    ghost left = { λ s. Some s };

    ghost faults = { λ _. 0 };

    fn read(&mut self, buf: &mut [u8]) -> Got
        requires { 0 < length buf.old }
        ensures does { Reads (λ s. Some s) (λ _. 0) self.old self.new result buf.new }
    {
        let (front, rest) = self.rest.split_at(buf.len().min(self.rest.len()));
        copy_to_front(buf, front);
        self.rest = rest;
        Got::Bytes(front.len())
    }
}
