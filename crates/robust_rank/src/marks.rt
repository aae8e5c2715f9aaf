ghost use Rattle.std.specs.Prelude.{◌≡◌, ◌<◌, length, All, IsTrue};
ghost use Rattle.corner_lift.specs.Certificate.{mark};

/// In place of a rank or of a chosen row where a state has none.
pub(crate) const NONE: u32 = u32::MAX;

/// The rank or the chosen row of a state.
#[inline(always)]
pub(crate) fn mark_of(marks: &[u32], s: usize) -> u32
    requires { s < length marks.now }
    ensures { result ≡ mark marks.now s }
{
    marks[s]
}

/// Whether the rank of each of these states is less than `below`.
#[inline(always)]
pub(crate) fn are_below(targets: &[u32], ranks: &[u32], below: u32) -> bool
    requires { All (λ t. t < length ranks.now) targets.now }
    ensures { IsTrue result → All (λ t. mark ranks.now t < below) targets.now }
{
    for target in targets {
        if ranks[*target as usize] >= below {
            return false;
        }
    }
    true
}
