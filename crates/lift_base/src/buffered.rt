// A buffer before a sink: it gathers small pieces in an array, and hands them on together.
ghost use Rattle.std.specs.Prelude.{◌≡◌, [], List, ℕ, Option, None, OnOk};
ghost use Rattle.std.specs.Borrow.{GName};
ghost use Rattle.std.specs.Io.KnownBytes.{Keeps, append_known};
ghost use Rattle.lift_base.specs.Begins.{BeginsWith};
ghost use Rattle.lift_base.specs.Outside.{Wrote, WroteSome};

use crate::held::{CAPACITY, Held};
use crate::output::write_most;
use crate::{Put, Sink, WriteFault};
use std::marker::{Brand, PhantomData};

/// How a sink stood when a buffer was put before it. Proofs alone see it: `Brand` is its only type,
/// and a value of it takes no bytes.
pub trait Origin {
    /// What the sink had taken then, where it is told.
    ghost taken: { Option (List ℕ) };

    /// The name of the reference that the sink is, where it is one.
    ghost reference: { GName };
}

impl Origin for Brand {
    ghost taken = { None };

    ghost reference = { 0 };
}

/// A buffer before a sink. It holds back up to 8192 bytes, in an array of its own, and hands them
/// on together; a piece that is larger goes on directly. What it has taken is what the sink took,
/// and behind that what is still held. It can't be dropped: end with `flush` and `into_inner`.
pub struct BufferedSink<K: Sink, O: Origin = Brand> {
    inner: K,
    held: Held,
    origin: PhantomData<O>,
    ghost begins: { BeginsWith O.taken (K.taken inner) },
    ghost same: { K.reference inner ≡ O.reference },
}

impl<K: Sink, O: Origin> BufferedSink<K, O> {
    /// Nothing is held yet.
    pub fn new(inner: K) -> Self
        requires begins { BeginsWith O.taken (K.taken inner) }
        requires same { K.reference inner ≡ O.reference }
        ensures inner { result.inner ≡ inner }
        ensures held { result.held ≡ [] }
    {
        BufferedSink {
            inner,
            held: Held::new(),
            origin: PhantomData,
        }
    }

    /// Hands on what is held. After an error the sink took the front of it, and the rest is still
    /// held.
    pub fn flush(&mut self) -> Result<(), WriteFault>
        ensures wrote { Wrote K.taken K.faults self.old.inner self.new.inner result self.old.held }
        ensures taken { Keeps (append_known (K.taken self.old.inner) self.old.held)
            (append_known (K.taken self.new.inner) self.new.held) }
        ensures empty { OnOk result (self.new.held ≡ []) }
    {
        let count = write_most(&mut self.inner, self.held.as_slice());
        let whole = count == self.held.len();
        self.held.remove_first(count);
        if whole { Ok(()) } else { Err(WriteFault) }
    }

    // Writes a text to an empty buffer, and hands all of it on.
    fn write_text<T: Text>(&mut self, text: &T) -> Result<(), WriteFault>
        requires origin { O.taken ≡ K.taken self.old.inner }
        requires empty { self.old.held ≡ [] }
        ensures { Wrote K.taken K.faults self.old.inner self.new.inner result (T.text text.now) }
    {
        text.write_to(self)?;
        self.flush()
    }

    // Writes a text to an empty buffer while it is made, and hands all of it on.
    fn tell_text<T: Telling>(&mut self, text: &mut T) -> Result<(), WriteFault>
        requires ready { T.is_ready text.old }
        requires origin { O.taken ≡ K.taken self.old.inner }
        requires empty { self.old.held ≡ [] }
        ensures { WroteSome (T.is_text text.old)
            K.taken K.faults self.old.inner self.new.inner result }
    {
        text.tell_to(self)?;
        self.flush()
    }

    /// The sink. What is still held is dropped.
    pub fn into_inner(self) -> K
        ensures { result ≡ self.inner }
    {
        let BufferedSink {
            inner,
            held: _,
            origin: _,
        } = self;
        inner
    }
}

impl<K: Sink, O: Origin> Sink for BufferedSink<K, O> {
    ghost taken = { λ s. append_known (K.taken s.inner) s.held };

    ghost faults = { λ s. K.faults s.inner };

    fn write(&mut self, piece: &[u8]) -> Put {
        if self.held.room() < piece.len() && self.flush().is_err() {
            return Put::Failed;
        }
        if CAPACITY < piece.len() {
            return self.inner.write(piece);
        }
        self.held.push_slice(piece);
        Put::Took(piece.len())
    }
}

/// A text that can be written to every sink.
pub trait Text {
    /// The bytes of the text.
    ghost text: { Self → List ℕ };

    /// Writes the text.
    fn write_to<K: Sink>(&self, out: &mut K) -> Result<(), WriteFault>
        ensures { Wrote K.taken K.faults out.old out.new result (text self.now) };
}

fn write_from<K: Sink, T: Text, O: Origin>(out: K, text: &T) -> (K, Result<(), WriteFault>)
    requires taken { O.taken ≡ K.taken out }
    requires same { K.reference out ≡ O.reference }
    ensures wrote { Wrote K.taken K.faults out result.0 result.1 (T.text text.now) }
    ensures same { K.reference result.0 ≡ K.reference out }
{
    let mut buffered = BufferedSink::<K, O>::new(out);
    let result = buffered.write_text(text);
    (buffered.into_inner(), result)
}

/// Writes a text by way of a buffer: about one call of the sink for every 8192 bytes. Takes no
/// memory from an allocator.
pub fn write_buffered<K: Sink, T: Text>(out: &mut K, text: &T) -> Result<(), WriteFault>
    ensures { Wrote K.taken K.faults out.old out.new result (T.text text.now) }
{
    write_from::<&mut K, T, Brand>(out, text).1
}

/// A text that is made while it is written, as by a walk. What is known of it is a property of its
/// bytes.
pub trait Telling {
    /// What has to hold for the text to be made.
    ghost is_ready: { Self → Type 0 };

    /// What the bytes have to be.
    ghost is_text: { Self → List ℕ → Type 0 };

    /// Makes the text and writes it.
    fn tell_to<K: Sink>(&mut self, out: &mut K) -> Result<(), WriteFault>
        requires { is_ready self.old }
        ensures { WroteSome (is_text self.old) K.taken K.faults out.old out.new result };
}

fn tell_from<K: Sink, T: Telling, O: Origin>(out: K, text: &mut T) -> (K, Result<(), WriteFault>)
    requires ready { T.is_ready text.old }
    requires taken { O.taken ≡ K.taken out }
    requires same { K.reference out ≡ O.reference }
    ensures wrote { WroteSome (T.is_text text.old) K.taken K.faults out result.0 result.1 }
    ensures same { K.reference result.0 ≡ K.reference out }
{
    let mut buffered = BufferedSink::<K, O>::new(out);
    let result = buffered.tell_text(text);
    (buffered.into_inner(), result)
}

/// Writes a text while it is made, by way of a buffer, as `write_buffered` does. Takes no memory from
/// an allocator.
pub fn tell_buffered<K: Sink, T: Telling>(out: &mut K, text: &mut T) -> Result<(), WriteFault>
    requires { T.is_ready text.old }
    ensures { WroteSome (T.is_text text.old) K.taken K.faults out.old out.new result }
{
    tell_from::<&mut K, T, Brand>(out, text).1
}
