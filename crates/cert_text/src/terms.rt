// Writes the terms of a polynomial.
ghost use Rattle.std.specs.Prelude.{◌≡◌};
ghost use Rattle.lift_base.specs.Outside.{Wrote};
ghost use Rattle.cert_text.specs.Report.{spaced, term_word};
ghost use Rattle.cert_text.specs.Terms.{terms_text};

use lift_base::{Sink, Word, WriteFault, write_words, writes_in_turn};
use lift_poly::MultiAffine;

fn write_term<K: Sink>(out: &mut K, term: (u16, i128)) -> Result<(), WriteFault>
    ensures { Wrote K.taken K.faults out.old out.new result (spaced (term_word term)) }
{
    let (set, coefficient) = term;
    write_words(
        out,
        &[
            Word::Text(b" "),
            Word::Count(u64::from(set)),
            Word::Text(b":"),
            Word::Number(coefficient),
        ],
    )
}

/// Writes each term behind a blank. Takes no memory.
pub(crate) fn write_terms<K: Sink>(out: &mut K, poly: &MultiAffine) -> Result<(), WriteFault>
    ensures { Wrote K.taken K.faults out.old out.new result (terms_text poly.now) }
{
    writes_in_turn::<K>();
    for index in 0..poly.len() {
        write_term(out, poly.term(index))?;
    }
    Ok(())
}
