// Writes the lines of nodes.
ghost use Rattle.std.specs.Prelude.{◌≡◌, ◌≤◌, ◌^◌, ◌∷◌, map, length, codes};
ghost use Rattle.std.specs.List.{concat};
ghost use Rattle.lift_base.specs.Outside.{Wrote};
ghost use Rattle.corner_lift.specs.Case.{number};
ghost use Rattle.lift_cert.specs.RejectMiss.{most_height};
ghost use Rattle.corner_lift.specs.Certificate.{most_rate};
ghost use Rattle.cert_text.specs.Report.{line, numbers_words, split_line, at_line, accept_line};
ghost use Rattle.cert_text.specs.Report.{mark_word, reject_words, reject_lines, unknown_line};

use corner_lift::{Case, one_at};
use lift_base::{Sink, Word, WriteFault, write_all, write_marks, write_words, writes_in_turn};

/// Writes the line of a split on that parameter. The nodes of the two halves follow it, those of the
/// lower half first.
pub fn write_split<K: Sink>(out: &mut K, axis: u32) -> Result<(), WriteFault>
    ensures { Wrote K.taken K.faults out.old out.new result (split_line axis) }
{
    write_words(
        out,
        &[
            Word::Text(b"split "),
            Word::Count(u64::from(axis)),
            Word::Text(b"\n"),
        ],
    )
}

/// Writes the line of a precision, which stands before each decided leaf of the second version.
pub fn write_at<K: Sink>(out: &mut K, u: u32) -> Result<(), WriteFault>
    ensures { Wrote K.taken K.faults out.old out.new result (at_line u) }
{
    write_words(
        out,
        &[
            Word::Text(b"at "),
            Word::Count(u64::from(u)),
            Word::Text(b"\n"),
        ],
    )
}

/// Writes an accepting leaf: one number for each state. Takes no memory.
pub fn write_accept<K: Sink>(out: &mut K, x: &[i64]) -> Result<(), WriteFault>
    ensures { Wrote K.taken K.faults out.old out.new result (accept_line x.now) }
{
    write_words(
        out,
        &[Word::Text(b"accept"), Word::Numbers(x), Word::Text(b"\n")],
    )
}

fn write_mark_line<K: Sink>(out: &mut K, key: &[u8], marks: &[u32]) -> Result<(), WriteFault>
    ensures { Wrote K.taken K.faults out.old out.new result
        (line (key.now ∷ map mark_word marks.now)) }
{
    writes_in_turn::<K>();
    write_all(out, key)?;
    write_marks(out, marks, u32::MAX)?;
    write_all(out, b"\n")
}

/// The number of the initial state.
fn initial_number(case: &Case, y: &[i64]) -> i64
    requires { length y.now ≡ length case.now.model.states }
    ensures { result ≡ number y.now case.now.model.init }
{
    let init = case.model().init();
    y[init as usize]
}

/// Writes the first line of a rejecting leaf.
fn write_rate<K: Sink>(
    out: &mut K,
    case: &Case,
    e: u32,
    k: u32,
    y: &[i64],
) -> Result<(), WriteFault>
    requires e { e ≤ most_rate }
    requires k { k ≤ most_height }
    requires numbers { length y.now ≡ length case.now.model.states }
    ensures { Wrote K.taken K.faults out.old out.new result
        (line (reject_words e k (number y.now case.now.model.init) (2 ^ case.now.w))) }
{
    let initial = initial_number(case, y);
    let one = one_at(case.w());
    write_words(
        out,
        &[
            Word::Text(b"reject e "),
            Word::Count(u64::from(e)),
            Word::Text(b" k "),
            Word::Count(u64::from(k)),
            Word::Text(b" m "),
            Word::Count(u64::from(e * k)),
            Word::Text(b" b "),
            Word::Number(i128::from(initial)),
            Word::Text(b"/"),
            Word::Number(i128::from(one)),
            Word::Text(b"\n"),
        ],
    )
}

fn write_numbers<K: Sink>(out: &mut K, y: &[i64]) -> Result<(), WriteFault>
    ensures { Wrote K.taken K.faults out.old out.new result
        (line (numbers_words (codes "y") y.now)) }
{
    write_words(
        out,
        &[Word::Text(b"y"), Word::Numbers(y), Word::Text(b"\n")],
    )
}

/// Writes a rejecting leaf: its rate, and the number, the chosen row and the rank of each state, `u32::MAX`
/// standing for none. Takes no memory.
pub fn write_reject<K: Sink>(
    out: &mut K,
    case: &Case,
    e: u32,
    k: u32,
    y: &[i64],
    picks: &[u32],
    ranks: &[u32],
) -> Result<(), WriteFault>
    requires e { e ≤ most_rate }
    requires k { (1 ≤ k) × (k ≤ most_height) }
    requires numbers { length y.now ≡ length case.now.model.states }
    requires picks { length picks.now ≡ length case.now.model.states }
    requires ranks { length ranks.now ≡ length case.now.model.states }
    ensures { Wrote K.taken K.faults out.old out.new result
        (concat (reject_lines case.now.model.init case.now.w
        (record { numbers = y.now; picks = picks.now; ranks = ranks.now; e = e; k = k }))) }
{
    writes_in_turn::<K>();
    write_rate(out, case, e, k, y)?;
    write_numbers(out, y)?;
    write_mark_line(out, b"choice", picks)?;
    write_mark_line(out, b"rank", ranks)
}

/// Writes an unknown leaf. Takes no memory.
pub fn write_unknown<K: Sink>(out: &mut K) -> Result<(), WriteFault>
    ensures { Wrote K.taken K.faults out.old out.new result unknown_line }
{
    write_all(out, b"unknown\n")
}
