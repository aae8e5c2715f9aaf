ghost use Rattle.audit_cert.specs.Laws.{FirstMissIsOne, PassingMissesNone};

/// Holds the laws of first misses, for who reasons about them: there is at most one, and what passes every test has none.
/// It does nothing.
pub fn first_miss_is_one()
    ensures one { FirstMissIsOne }
    ensures none { PassingMissesNone }
{}
