use corner_lift::Case;
use lift_cert::Bound;
use lift_model::Links;
use property_text::Op;

/// What is asked of the rectangles of a case: how the probability of reaching the goal is compared with a bound.
#[derive(Clone, Copy)]
pub struct Question<'a, 'm> {
    pub case: &'a Case<'m>,
    /// The links of the case's model.
    pub links: &'a Links,
    pub op: Op,
    pub bound: Bound,
    /// The least precision of a range, from 1 to the case's, where each leaf tells its own. With none a rectangle is
    /// decided at the case's precision.
    pub from: Option<u32>,
}
