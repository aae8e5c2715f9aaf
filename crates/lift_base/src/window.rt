// A window on what a source gives: a part of a buffer, which moves to its front when there is no room.
ghost use Rattle.std.specs.Prelude.{◌≡◌, ◌+◌, ◌≤◌, ◌++◌, [], length, drop, IfOk};
ghost use Rattle.lift_base.specs.Window.{Fills, held_of};
ghost use Rattle.lift_base.specs.declared.window.TheConstants.{PIECE, SIZE};

use crate::{Got, Source};
use std::alloc::{AllocError, Global};
use std::marker::Model;

/// How many bytes a read may give at most.
pub(crate) const PIECE: usize = 4096;

/// How many bytes the buffer has.
pub(crate) const SIZE: usize = (1 << 20) + (1 << 16);

/// So few bytes are moved to the front before each read, so that short lines stay in few pages.
const FEW: usize = 256;

/// Bytes that were read and not given yet: what stands in a buffer from a place on. The buffer has its room from the
/// beginning, and only what was read is ever written into it, so that a short text touches few pages.
#[derive(Drop)]
pub(crate) struct Window {
    buf: Vec<u8>,
    from: usize,
}

impl Model for Window {
    ghost use Rattle.std.specs.Prelude.{◌≤◌, vec_len, vec_capacity};
    ghost use Rattle.lift_base.specs.Window.{WindowData};
    ghost use Rattle.lift_base.specs.declared.window.TheConstants.{SIZE};

    ghost Value = { WindowData };

    ghost view = { λ w. record { buf = w.buf.items; from = w.from } };

    ghost invariant = { λ w. (w.from ≤ vec_len w.buf) × (vec_len w.buf ≤ SIZE) × (SIZE ≤ vec_capacity w.buf) };
}

impl Window {
    /// Nothing is held yet.
    pub fn make(alloc: Global) -> Result<Window, AllocError>
        ensures { IfOk result (λ w. held_of w ≡ []) }
    {
        let buf = Vec::with_capacity(alloc, SIZE)?;
        Ok(Window { buf, from: 0 })
    }

    /// How many bytes are held.
    #[inline(always)]
    pub fn len(&self) -> usize
        ensures { result ≡ length (held_of self.now) }
    {
        self.buf.len() - self.from
    }

    /// What is held.
    #[inline(always)]
    pub fn held(&self) -> &[u8]
        ensures { result.now ≡ held_of self.now }
    {
        &self.buf[self.from..]
    }

    /// Lets the first bytes go.
    #[inline(always)]
    #[tactic(auto, using(crate::proofs::WindowParts::rest_skipped))]
    pub fn skip(&mut self, count: usize)
        requires { count ≤ length (held_of self.old) }
        ensures held { held_of self.new ≡ drop count (held_of self.old) }
        ensures text { self.new.buf ≡ self.old.buf }
        ensures from { self.new.from ≡ self.old.from + count }
    {
        self.from += count;
    }

    /// Moves what is held to the front of the buffer.
    #[tactic(auto, using(crate::proofs::WindowParts::rest_moved))]
    fn to_front(&mut self)
        ensures held { held_of self.new ≡ held_of self.old }
        ensures buf { self.new.buf ≡ held_of self.old }
    {
        let len = self.len();
        self.buf.copy_within(self.from.., 0);
        self.buf.truncate(len);
        self.from = 0;
    }

    /// Makes room for a read.
    fn make_room(&mut self)
        requires { length (held_of self.old) + PIECE ≤ SIZE }
        ensures held { held_of self.new ≡ held_of self.old }
        ensures room { length self.new.buf + PIECE ≤ SIZE }
    {
        if self.len() <= FEW || self.buf.len() + PIECE > SIZE {
            self.to_front();
        }
    }

    /// Holds these bytes too, behind the others.
    #[tactic(auto, using(crate::proofs::WindowParts::rest_grown))]
    fn push(&mut self, piece: &[u8])
        requires { length self.old.buf + length piece.now ≤ SIZE }
        ensures { held_of self.new ≡ held_of self.old ++ piece.now }
    {
        self.buf.extend_from_slice(piece).unwrap();
    }

    /// Reads once, behind what is held.
    pub fn fill<S: Source>(&mut self, src: &mut S) -> Got
        requires { length (held_of self.old) + PIECE ≤ SIZE }
        ensures { Fills S.left S.faults src.old src.new (held_of self.old) (held_of self.new) result }
    {
        let mut piece = [0u8; PIECE];
        let got = src.read(&mut piece);
        if let Got::Bytes(count) = got {
            self.make_room();
            self.push(&piece[..count]);
        }
        got
    }

    /// The buffer.
    #[inline(always)]
    pub fn text(&self) -> &[u8]
        ensures { result.now ≡ self.now.buf }
    {
        &self.buf
    }

    /// Where what is held begins in the buffer.
    #[inline(always)]
    pub fn from(&self) -> usize
        ensures value { result ≡ self.now.from }
        ensures within { result + length (held_of self.now) ≤ SIZE }
    {
        self.from
    }
}
