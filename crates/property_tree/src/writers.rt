//! Writes the leaves of a tree.

ghost use Rattle.std.specs.Prelude.{◌≡◌, ◌≤◌, ◌*◌, ◌^◌, ◌∷◌, ◌++◌, length, map, codes};
ghost use Rattle.lift_base.specs.Outside.{Wrote};
ghost use Rattle.corner_lift.specs.Case.{at, most_precision, number};
ghost use Rattle.cert_text.specs.Report.{line, mark_word, numbers_words};
ghost use Rattle.region_tree.specs.Decided.{reject_in};
ghost use Rattle.region_tree.specs.Rooms.{HasPools};
ghost use Rattle.property_tree.specs.Leaves.{PropertyLeaf};
ghost use Rattle.property_tree.specs.Decided.{leaf_in, lower_all_in, lower_in, upper_in};
ghost use Rattle.property_tree.specs.Text.{
  certificate_text,
  choices_line,
  leaf_text,
  lower_line,
  verdict_line,
};

use crate::question::Question;
use crate::sides::is_upper;
use corner_lift::{Case, one_at};
use lift_base::{Sink, Word, WriteFault, write_all, write_marks, write_words, writes_in_turn};
use lower_cert::Rate;
use region_tree::{Pools, Side};

/// Writes whether the property holds.
fn write_verdict<K: Sink>(out: &mut K, holds: bool) -> Result<(), WriteFault>
    ensures { Wrote K.taken K.faults out.old out.new result (verdict_line holds) }
{
    if holds {
        write_all(out, b"holds\n")
    } else {
        write_all(out, b"fails\n")
    }
}

/// Writes a line of the numbers of the states.
fn write_numbers<'x, K: Sink>(
    out: &mut K,
    key: &'x [u8],
    numbers: &'x [i64],
) -> Result<(), WriteFault>
    ensures { Wrote K.taken K.faults out.old out.new result (line (numbers_words key.now numbers.now)) }
{
    write_words(
        out,
        &[Word::Text(key), Word::Numbers(numbers), Word::Text(b"\n")],
    )
}

/// Writes a line of the choices or the ranks of the states.
fn write_mark_line<K: Sink>(out: &mut K, key: &[u8], marks: &[u32]) -> Result<(), WriteFault>
    ensures { Wrote K.taken K.faults out.old out.new result (line (key.now ∷ map mark_word marks.now)) }
{
    writes_in_turn::<K>();
    write_all(out, key)?;
    write_marks(out, marks, u32::MAX)?;
    write_all(out, b"\n")
}

/// The product, which can't overflow.
fn widening_mul(a: u32, b: u32) -> u64
    ensures { result ≡ a * b }
{
    u64::from(a) * u64::from(b)
}

/// The number of the initial state.
fn initial_number(case: &Case, numbers: &[i64]) -> i64
    requires { length numbers.now ≡ length case.now.model.states }
    ensures { result ≡ number numbers.now case.now.model.init }
{
    let init = case.model().init();
    numbers[init as usize]
}

/// Writes the first line of a lower vector at the precision `u`.
fn write_rate<K: Sink>(
    out: &mut K,
    case: &Case,
    u: u32,
    rate: Rate,
    numbers: &[i64],
) -> Result<(), WriteFault>
    requires u { u ≤ most_precision }
    requires numbers { length numbers.now ≡ length case.now.model.states }
    ensures { Wrote K.taken K.faults out.old out.new result
        (lower_line rate.e rate.k (number numbers.now case.now.model.init) (2 ^ u)) }
{
    let initial = initial_number(case, numbers);
    let one = one_at(u);
    let Rate { e, k } = rate;
    write_words(
        out,
        &[
            Word::Text(b"lower e "),
            Word::Count(u64::from(e)),
            Word::Text(b" k "),
            Word::Count(u64::from(k)),
            Word::Text(b" m "),
            Word::Count(widening_mul(e, k)),
            Word::Text(b" b "),
            Word::Number(i128::from(initial)),
            Word::Text(b"/"),
            Word::Number(i128::from(one)),
            Word::Text(b"\n"),
        ],
    )
}

/// Writes the first line of a lower vector, and its numbers.
fn write_numbers_below<K: Sink>(
    out: &mut K,
    case: &Case,
    u: u32,
    rate: Rate,
    numbers: &[i64],
) -> Result<(), WriteFault>
    requires u { u ≤ most_precision }
    requires numbers { length numbers.now ≡ length case.now.model.states }
    ensures { Wrote K.taken K.faults out.old out.new result
        (lower_line rate.e rate.k (number numbers.now case.now.model.init) (2 ^ u)
        ++ line (numbers_words (codes "y") numbers.now)) }
{
    writes_in_turn::<K>();
    write_rate(out, case, u, rate, numbers)?;
    write_numbers(out, b"y", numbers)
}

/// Writes an upper vector for one scheduler.
fn write_upper_one<K: Sink>(out: &mut K, numbers: &[i64], picks: &[u32]) -> Result<(), WriteFault>
    ensures { Wrote K.taken K.faults out.old out.new result
        (line (numbers_words (codes "x") numbers.now) ++ choices_line picks.now) }
{
    writes_in_turn::<K>();
    write_numbers(out, b"x", numbers)?;
    write_mark_line(out, b"choice", picks)
}

/// Writes a lower vector of one scheduler.
fn write_lower<K: Sink>(
    out: &mut K,
    case: &Case,
    u: u32,
    rate: Rate,
    pools: &Pools,
) -> Result<(), WriteFault>
    requires u { u ≤ most_precision }
    requires pools { HasPools case.now.model pools.now }
    ensures { Wrote K.taken K.faults out.old out.new result
        (certificate_text (at case.now u) (PropertyLeaf.lower (reject_in pools.now rate.e rate.k))) }
{
    writes_in_turn::<K>();
    write_numbers_below(out, case, u, rate, pools.values.lane(0))?;
    write_mark_line(out, b"choice", pools.picks.lane(0))?;
    write_mark_line(out, b"rank", pools.ranks.lane(0))
}

/// Writes a lower vector for every scheduler.
fn write_lower_all<K: Sink>(
    out: &mut K,
    case: &Case,
    u: u32,
    rate: Rate,
    pools: &Pools,
) -> Result<(), WriteFault>
    requires u { u ≤ most_precision }
    requires pools { HasPools case.now.model pools.now }
    ensures { Wrote K.taken K.faults out.old out.new result
        (certificate_text (at case.now u) (PropertyLeaf.lower_all (lower_all_in pools.now rate.e rate.k))) }
{
    writes_in_turn::<K>();
    write_numbers_below(out, case, u, rate, pools.values.lane(0))?;
    write_mark_line(out, b"rank", pools.ranks.lane(0))
}

impl Question<'_, '_> {
    /// Writes a leaf that a certificate from above decides, at the precision `u`.
    fn write_above<K: Sink>(&self, u: u32, pools: &Pools, out: &mut K) -> Result<(), WriteFault>
        requires { HasPools self.now.case.now.model pools.now }
        ensures { Wrote K.taken K.faults out.old out.new result
            (leaf_text (at self.now.case.now u) self.now.op (upper_in self.now.op pools.now)) }
    {
        writes_in_turn::<K>();
        write_verdict(out, is_upper(self.op))?;
        if is_upper(self.op) {
            write_numbers(out, b"x", pools.values.lane(0))
        } else {
            write_upper_one(out, pools.values.lane(0), pools.picks.lane(0))
        }
    }

    /// Writes a leaf that one from below decides.
    fn write_below<K: Sink>(
        &self,
        u: u32,
        rate: Rate,
        pools: &Pools,
        out: &mut K,
    ) -> Result<(), WriteFault>
        requires u { u ≤ most_precision }
        requires pools { HasPools self.now.case.now.model pools.now }
        ensures { Wrote K.taken K.faults out.old out.new result
            (leaf_text (at self.now.case.now u) self.now.op (lower_in self.now.op pools.now rate.e rate.k)) }
    {
        writes_in_turn::<K>();
        write_verdict(out, !is_upper(self.op))?;
        if is_upper(self.op) {
            write_lower(out, self.case, u, rate, pools)
        } else {
            write_lower_all(out, self.case, u, rate, pools)
        }
    }

    /// Writes a leaf by its verdict, with the certificate at the precision `u` that stands in the lanes.
    pub(crate) fn write_leaf<K: Sink>(
        &self,
        u: u32,
        verdict: Side,
        pools: &Pools,
        out: &mut K,
    ) -> Result<(), WriteFault>
        requires u { u ≤ most_precision }
        requires pools { HasPools self.now.case.now.model pools.now }
        ensures { Wrote K.taken K.faults out.old out.new result
            (leaf_text (at self.now.case.now u) self.now.op (leaf_in self.now.op pools.now verdict)) }
    {
        match verdict {
            Side::Above => self.write_above(u, pools, out),
            Side::Below(rate) => self.write_below(u, rate, pools, out),
        }
    }
}
