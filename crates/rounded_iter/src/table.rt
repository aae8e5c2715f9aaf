use corner_lift::Lifted;
use float_guess::Rule;

/// How an iteration ended.
#[derive(Clone, Copy)]
pub(crate) enum Ended {
    /// No state has to rise.
    Settled,
    /// The initial state's number is above the limit.
    Past,
    /// It took more passes than it was to make.
    Slow,
}

/// The rows of a case that is lifted to a rectangle, on which vectors are raised by a rule. `top` stands for
/// 1. An iteration may stop where the initial state's number is above `limit`.
#[derive(Drop)]
pub(crate) struct Table<'a, 'b> {
    pub(crate) rows: &'a Lifted<'a>,
    pub(crate) rule: Rule<'b>,
    pub(crate) top: i64,
    pub(crate) limit: i64,
}

impl<'a, 'b> std::marker::Model for Table<'a, 'b> {
    ghost use Rattle.std.specs.Prelude.{◌≡◌, ◌^◌, pos};
    ghost use Rattle.rounded_iter.specs.Rising.{TableData};

    ghost Value = { TableData };

    ghost view = { λ t. record {
      case = t.rows.now.case;
      links = t.rows.now.links;
      weights = t.rows.now.weights;
      rule = t.rule;
      limit = t.limit;
    } };

    ghost invariant = { λ t. t.top ≡ pos (2 ^ t.rows.now.case.w) };
}
