// The first line of a rejecting leaf.
ghost use Rattle.std.specs.Prelude.{◌≡◌, ◌≤◌, IfOk};
ghost use Rattle.lift_cert.specs.RejectMiss.{most_height};
ghost use Rattle.corner_lift.specs.Certificate.{most_rate};
ghost use Rattle.cert_text.specs.Lines.{named, rejected, reject_of};
ghost use Rattle.line_text.specs.Shown.{Says};
ghost use Rattle.cert_text.specs.Leaf.{rejected_of};

use line_text::{Decimal, TextCause, Words, between, pair_of};

/// The greatest number e of a rate.
const MOST_RATE: u64 = 126;

/// The greatest number k: a rank for each state that a model may have.
const MOST_HEIGHT: u64 = 65_536;

/// What the first line of a rejecting leaf tells: its rate, and the number of the initial state as a
/// fraction of two numbers.
#[derive(Drop)]
pub(crate) struct Rejected<'t> {
    pub e: u32,
    pub k: u32,
    pub m: Decimal<'t>,
    pub y: Decimal<'t>,
    pub z: Decimal<'t>,
}

/// A word that has to stand next, and the one behind it.
fn named<'t>(words: &Words<'t>, key: &[u8]) -> Result<(&'t [u8], Words<'t>), TextCause>
    ensures { Says (λ x. (x.0.now, x.1)) result (named key.now words.now) }
{
    let rest = words.keyed(key)?;
    rest.first()
}

/// What these numbers tell of a rejecting leaf, where e and k are in their ranges.
fn reported<'t>(
    e: Decimal,
    k: Decimal,
    m: Decimal<'t>,
    y: Decimal<'t>,
    z: Decimal<'t>,
) -> Result<Rejected<'t>, TextCause>
    ensures value { Says rejected_of result (rejected e.entry k.entry m.entry (y.entry, z.entry)) }
    ensures e { IfOk result (λ r. r.e ≤ most_rate) }
    ensures k { IfOk result (λ r. r.k ≤ most_height) }
{
    let e = between(&e, 0, MOST_RATE + 1)?;
    let k = between(&k, 1, MOST_HEIGHT + 1)?;
    Ok(Rejected {
        e: e as u32,
        k: k as u32,
        m,
        y,
        z,
    })
}

/// What the first line of a rejecting leaf tells.
pub(crate) fn reject_of<'t>(words: &Words<'t>) -> Result<Rejected<'t>, TextCause>
    ensures value { Says rejected_of result (reject_of words.now) }
    ensures e { IfOk result (λ r. r.e ≤ most_rate) }
    ensures k { IfOk result (λ r. r.k ≤ most_height) }
{
    let rest = words.keyed(b"reject")?;
    let (e, rest) = named(&rest, b"e")?;
    let Some(e) = Decimal::read(e) else {
        return Err(TextCause::Syntax);
    };
    let (k, rest) = named(&rest, b"k")?;
    let Some(k) = Decimal::read(k) else {
        return Err(TextCause::Syntax);
    };
    let (m, rest) = named(&rest, b"m")?;
    let Some(m) = Decimal::read(m) else {
        return Err(TextCause::Syntax);
    };
    let (b, rest) = named(&rest, b"b")?;
    let Some((y, z)) = pair_of(b, b'/') else {
        return Err(TextCause::Syntax);
    };
    if !rest.is_empty() {
        return Err(TextCause::Syntax);
    }
    reported(e, k, m, y, z)
}
