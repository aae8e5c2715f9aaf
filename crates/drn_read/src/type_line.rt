// The type that a line names.
ghost use Rattle.std.specs.Prelude.{◌≡◌};
ghost use Rattle.drn_read.specs.Sections.{kind_of, type_text};

use lift_bytes::trimmed;
use lift_model::Kind;

/// How many bytes `@type:` has.
const TYPE_LEN: usize = 6;

/// The text behind `@type:`, without blanks around it.
fn type_text(line: &[u8]) -> &[u8]
    ensures { result.now ≡ type_text line.now }
{
    trimmed(&line[TYPE_LEN.min(line.len())..])
}

fn kind_of(text: &[u8]) -> Option<Kind>
    ensures { result ≡ kind_of text.now }
{
    if text == b"DTMC".as_slice() {
        Some(Kind::Dtmc)
    } else if text == b"MDP".as_slice() {
        Some(Kind::Mdp)
    } else {
        None
    }
}

/// The type that a line names behind `@type:`, if it is one.
pub(crate) fn kind_in(line: &[u8]) -> Option<Kind>
    ensures { result ≡ kind_of (type_text line.now) }
{
    kind_of(type_text(line))
}
