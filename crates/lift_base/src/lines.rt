// Lines of a source, one by one.
ghost use Rattle.std.specs.Prelude.{◌≡◌, ◌⊎◌, ◌+◌, ◌-◌, ◌≤◌, ◌<◌, ◌^◌, ℕ, List, length, min, None, IsTrue, IsErr, IfOk, IfSome, IfNone};
ghost use Rattle.std.specs.List.{before_first, slice_range};
ghost use Rattle.lift_base.specs.Lines.{Answers, CountsFault, FrontIs, IsFront, KeepsLimit, LinesData, ReadOn, Tells, Waits};
ghost use Rattle.lift_base.specs.Lines.{feed_at, fresh, is_feed, passed};
ghost use Rattle.lift_base.specs.declared.pieces.Front.TheVariants as front;

use crate::pieces::{Front, LineError, Piece};
use crate::window::Window;
use crate::{Got, Source};
use memchr::memchr;
use std::alloc::{AllocError, Global};
use std::marker::Model;

/// How many bytes a line has at most, its line feed not counted.
const LINE_LIMIT: usize = 1 << 20;

/// Lines of a source, one by one, each of at most 2^20 bytes and a line feed. What was read and not given yet is
/// kept in a buffer of 1.1 MB, which `make` takes; no other call takes memory. A source is read only where it can't
/// be told without more bytes what stands at the front of what is left, by at most 4096 bytes a call. A failed read
/// and too many bytes end it: from then on each call answers that again, and no more is read.
#[derive(Drop)]
pub struct Lines {
    window: Window,
    line_len: usize,
    taken: u64,
    given: u64,
    limit: u64,
    ended: bool,
    failure: Option<LineError>,
}

impl Model for Lines {
    ghost use Rattle.std.specs.Prelude.{◌≡◌, ◌≤◌, ◌+◌, ◌^◌, length};
    ghost use Rattle.lift_base.specs.Window.{held_of};
    ghost use Rattle.lift_base.specs.Lines.{LinesData, KeepsLimit, feed_at};

    ghost Value = { LinesData };

    ghost view = { λ l. record {
      limit = l.limit;
      text = l.window.buf;
      held = held_of l.window;
      taken = l.taken;
      given = l.given;
      ended = l.ended;
      failure = l.failure;
    } };

    ghost invariant = { λ l.
        (l.line_len ≡ feed_at (held_of l.window))
        × (l.given + length (held_of l.window) ≤ l.taken)
        × (l.taken ≤ l.limit + 4096)
        × (l.limit ≤ 2 ^ 32)
        × KeepsLimit l.failure l.limit l.taken };
}

/// How many bytes stand before the first line feed; all of them where there is none.
#[tactic(auto, using(crate::proofs::Fronts::no_feed, crate::proofs::Fronts::first_feed))]
#[inline(always)]
fn line_len(text: &[u8]) -> usize
    ensures within { result ≤ length text.now }
    ensures len { result ≡ feed_at text.now }
{
    match memchr(b'\n', text) {
        Some(len) => len,
        None => text.len(),
    }
}

impl Lines {
    /// Nothing was taken yet. More than `limit` bytes, which is at most 2^32, are too many.
    pub fn make(alloc: Global, limit: u64) -> Result<Lines, AllocError>
        requires { limit ≤ 2 ^ 32 }
        ensures { IfOk result (λ l. l ≡ fresh limit l.text) }
    {
        Ok(Lines {
            window: Window::make(alloc)?,
            line_len: 0,
            taken: 0,
            given: 0,
            limit,
            ended: false,
            failure: None,
        })
    }

    /// How many lines were given; it stays at the last value of the type.
    pub fn given(&self) -> u32
        ensures value { result ≡ min self.now.given (2 ^ 32 - 1) }
        ensures counted { self.now.given + length self.now.held ≤ self.now.taken }
        ensures limit { KeepsLimit self.now.failure self.now.limit self.now.taken }
        ensures small { self.now.limit ≤ 2 ^ 32 }
    {
        self.given.min(u64::from(u32::MAX)) as u32
    }

    /// The text in which a line's span is, until the next call that reads.
    #[inline(always)]
    pub fn text(&self) -> &[u8]
        ensures { result.now ≡ self.now.text }
    {
        self.window.text()
    }

    /// The line at the front, without its line feed.
    #[inline(always)]
    pub fn line(&self) -> &[u8]
        requires { IsFront front.Line self.now.held }
        ensures { result.now ≡ before_first is_feed self.now.held }
    {
        &self.window.held()[..self.line_len]
    }

    /// Where the line at the front begins and ends in the text.
    #[inline(always)]
    fn span(&self) -> (usize, usize)
        requires { IsFront front.Line self.now.held }
        ensures order { result.0 ≤ result.1 }
        ensures within { result.1 ≤ length self.now.text }
        ensures line { slice_range self.now.text result.0 result.1 ≡ before_first is_feed self.now.held }
    {
        let from = self.window.from();
        (from, from + self.line_len)
    }

    /// Gives the line at the front.
    #[inline(always)]
    #[tactic(auto, using(crate::proofs::Fronts::counted))]
    pub fn pass(&mut self)
        requires { IsFront front.Line self.old.held }
        ensures { self.new ≡ passed self.old }
    {
        self.window.skip(self.line_len + 1);
        self.line_len = line_len(self.window.held());
        self.given += 1;
    }

    /// What stands at the front, where it can be told without more bytes.
    #[inline(always)]
    #[tactic(auto, using(crate::proofs::Fronts::line_ahead, crate::proofs::Fronts::long_ahead, crate::proofs::Fronts::end_ahead))]
    fn front(&self) -> Option<Front>
        requires { self.now.failure ≡ None }
        ensures some { IfSome result (FrontIs self.now) }
        ensures none { IfNone result (Waits self.now) }
        ensures limit { KeepsLimit self.now.failure self.now.limit self.now.taken }
    {
        if self.line_len > LINE_LIMIT {
            return Some(Front::Long);
        }
        if self.line_len < self.window.len() {
            return Some(Front::Line);
        }
        if !self.ended {
            return None;
        }
        if self.line_len > 0 {
            return Some(Front::Cut);
        }
        Some(Front::End)
    }

    /// Reads once.
    #[tactic(auto, using(crate::proofs::Fronts::longer))]
    fn read<S: Source>(&mut self, src: &mut S) -> Result<(), LineError>
        requires { Waits self.old }
        ensures reads { (bytes : List ℕ) × ReadOn S.left self.old self.new src.old src.new bytes }
        ensures tells { Tells result self.new.failure }
        ensures faults { CountsFault S.faults self.old.failure src.old src.new result }
        ensures limit { KeepsLimit self.new.failure self.new.limit self.new.taken }
        ensures grows { IsTrue self.new.ended ⊎ (length self.old.held < length self.new.held) ⊎ IsErr result }
    {
        let len = self.window.len();
        match self.window.fill(src) {
            Got::Failed => {
                self.failure = Some(LineError::Fault);
                Err(LineError::Fault)
            }
            Got::Bytes(0) => {
                self.ended = true;
                Ok(())
            }
            Got::Bytes(count) => {
                self.line_len = len + line_len(&self.window.held()[len..]);
                self.taken += count as u64;
                if self.taken > self.limit {
                    self.failure = Some(LineError::TooLong);
                    return Err(LineError::TooLong);
                }
                Ok(())
            }
        }
    }

    /// What stands at the front of what is left; nothing is given. It reads until that can be told. Fault comes where
    /// a read failed, TooLong where more bytes came than the limit allows.
    pub fn look<S: Source>(&mut self, src: &mut S) -> Result<Front, LineError>
        ensures reads { (bytes : List ℕ) × ReadOn S.left self.old self.new src.old src.new bytes }
        ensures tells { Tells result self.new.failure }
        ensures faults { CountsFault S.faults self.old.failure src.old src.new result }
        ensures limit { KeepsLimit self.new.failure self.new.limit self.new.taken }
        ensures front { IfOk result (FrontIs self.new) }
        ensures here { IfOk result (λ f. IsFront f self.new.held) }
    {
        if let Some(failure) = self.failure {
            return Err(failure);
        }
        loop {
            if let Some(front) = self.front() {
                return Ok(front);
            }
            self.read(src)?;
        }
    }

    /// Gives the next line, as a span of `text`, or tells why there is none. It reads as `look` does.
    pub fn next<S: Source>(&mut self, src: &mut S) -> Result<Piece, LineError>
        ensures gives { (between : LinesData) × (bytes : List ℕ) × ReadOn S.left self.old between src.old src.new bytes
            × Answers result between self.new }
        ensures tells { Tells result self.new.failure }
        ensures faults { CountsFault S.faults self.old.failure src.old src.new result }
        ensures limit { KeepsLimit self.new.failure self.new.limit self.new.taken }
    {
        match self.look(src)? {
            Front::Line => {
                let (from, to) = self.span();
                self.pass();
                Ok(Piece::Line { from, to })
            }
            Front::Cut => Ok(Piece::Cut),
            Front::Long => Ok(Piece::Long),
            Front::End => Ok(Piece::End),
        }
    }
}
