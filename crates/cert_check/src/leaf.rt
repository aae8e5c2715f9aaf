// Tests of a single node.
ghost use Rattle.std.specs.Prelude.{◌≡◌, ◌↔◌, ◌<◌, length, IsTrue, IsOk, IfErr, MatchResult};
ghost use Rattle.lift_grid.specs.Rectangle.{Spans, spans_of};
ghost use Rattle.lift_grid.specs.Splitting.{IsSplitAxis};
ghost use Rattle.lift_model.specs.Model.{live};
ghost use Rattle.lift_model.specs.Links.{ArePlaces};
ghost use Rattle.corner_lift.specs.Case.{AreSidesInside};
ghost use Rattle.corner_lift.specs.Certificate.{AreNumbers};
ghost use Rattle.lift_cert.specs.Certificate.{IsAccepting, IsRejecting};
ghost use Rattle.lift_cert.specs.Miss.{IsFirstAcceptMiss};
ghost use Rattle.lift_cert.specs.RejectMiss.{HasRejectForm, IsFirstRejectMiss};
ghost use Rattle.cert_check.specs.Source.{TellsSmallNumbers};
ghost use Rattle.cert_check.specs.Shown.{IsSplitReported, Misses, reject_of};

use crate::error::CheckError;
use corner_lift::{Case, fill, live_parameters_have_spans};
use lift_cert::{Bound, Certificate, is_accepting, is_rejecting, meets_accept, meets_reject};
use lift_grid::split_axis;
use lift_model::Links;

/// What the certificates of leaves at a precision are tested for: the case at that precision, with its
/// links, and a bound.
#[derive(Drop)]
pub(crate) struct Asked<'a> {
    pub case: Case<'a>,
    pub links: &'a Links,
    pub bound: Bound,
}

/// What a rejecting leaf tells: the number, the chosen row and the rank of each state, and the rate.
#[derive(Drop)]
pub(crate) struct Rejecting<'a> {
    pub y: &'a [i64],
    pub picks: &'a [u32],
    pub ranks: &'a [u32],
    pub e: u32,
    pub k: u32,
}

impl Asked<'_> {
    /// Whether `x` is an accepting certificate of the rectangle with these sides. What the weights were is
    /// lost.
    fn accepts(&self, sides: &[i64], weights: &mut [i128], x: &[i64]) -> bool
        ghost spans: { Spans }
        requires spans { spans ≡ spans_of sides.now }
        requires places { ArePlaces self.now.case.model self.now.links.now }
        requires weights { length weights.old ≡ self.now.links.now.weights }
        requires sides { AreSidesInside self.now.case.root sides.now }
        requires numbers { AreNumbers self.now.case x.now }
        ensures { IsTrue result ↔ IsAccepting self.now.case spans self.now.bound x.now }
    {
        fill(&self.case, self.links, sides, weights);
        is_accepting(&self.case, self.links, weights, self.bound, x)
    }

    /// Tests the certificate of an accepting leaf. What the weights were is lost.
    pub(crate) fn test_accept(
        &self,
        sides: &[i64],
        weights: &mut [i128],
        node: u32,
        x: &[i64],
    ) -> Result<(), CheckError>
        requires places { ArePlaces self.now.case.model self.now.links.now }
        requires weights { length weights.old ≡ self.now.links.now.weights }
        requires sides { AreSidesInside self.now.case.root sides.now }
        requires numbers { AreNumbers self.now.case x.now }
        ensures test { MatchResult result
            (λ _. IsAccepting self.now.case (spans_of sides.now) self.now.bound x.now)
            (Misses node (IsFirstAcceptMiss self.now.case (spans_of sides.now) self.now.bound x.now)) }
        ensures reported { IfErr result TellsSmallNumbers }
    {
        if self.accepts(sides, weights, x) {
            return Ok(());
        }
        match meets_accept(&self.case, sides, self.bound, x) {
            Ok(()) => Ok(()),
            Err(miss) => Err(CheckError::Missed { node, miss }),
        }
    }

    /// Whether that is a rejecting certificate of the rectangle with these sides. What the weights were is lost.
    fn rejects(&self, sides: &[i64], weights: &mut [i128], leaf: &Rejecting) -> bool
        ghost spans: { Spans }
        requires spans { spans ≡ spans_of sides.now }
        requires places { ArePlaces self.now.case.model self.now.links.now }
        requires weights { length weights.old ≡ self.now.links.now.weights }
        requires sides { AreSidesInside self.now.case.root sides.now }
        requires form { HasRejectForm self.now.case (reject_of leaf.now) }
        ensures { IsTrue result ↔ IsRejecting self.now.case spans self.now.bound (reject_of leaf.now) }
    {
        fill(&self.case, self.links, sides, weights);
        let certificate = Certificate::new(leaf.y, leaf.picks, leaf.ranks, leaf.e, leaf.k);
        is_rejecting(&self.case, self.links, weights, self.bound, &certificate)
    }

    /// Tests the certificate of a rejecting leaf. What the weights were is lost.
    pub(crate) fn test_reject(
        &self,
        sides: &[i64],
        weights: &mut [i128],
        node: u32,
        leaf: &Rejecting,
    ) -> Result<(), CheckError>
        requires places { ArePlaces self.now.case.model self.now.links.now }
        requires weights { length weights.old ≡ self.now.links.now.weights }
        requires sides { AreSidesInside self.now.case.root sides.now }
        requires form { HasRejectForm self.now.case (reject_of leaf.now) }
        ensures test { MatchResult result
            (λ _. IsRejecting self.now.case (spans_of sides.now) self.now.bound (reject_of leaf.now))
            (Misses node (IsFirstRejectMiss self.now.case (spans_of sides.now) self.now.bound (reject_of leaf.now))) }
        ensures reported { IfErr result TellsSmallNumbers }
    {
        if self.rejects(sides, weights, leaf) {
            return Ok(());
        }
        match meets_reject(
            &self.case, sides, self.bound, leaf.y, leaf.picks, leaf.ranks, leaf.e, leaf.k,
        ) {
            Ok(()) => Ok(()),
            Err(miss) => Err(CheckError::Missed { node, miss }),
        }
    }
}

/// Tests that an unknown leaf stands where no halving is left.
pub(crate) fn test_unknown(levels: u32, node: u32) -> Result<(), CheckError>
    ensures { MatchResult result
        (λ _. levels ≡ 0)
        (λ e. (0 < levels) × (e ≡ CheckError.Depth node)) }
{
    if levels > 0 {
        return Err(CheckError::Depth { node });
    }
    Ok(())
}

/// Whether the axis is that of the split rule.
fn is_split_axis(case: &Case, sides: &[i64], axis: u32) -> bool
    requires { AreSidesInside case.now.root sides.now }
    ensures { IsTrue result ↔ IsSplitAxis (live case.now.model) (spans_of sides.now) axis }
{
    live_parameters_have_spans();
    match split_axis(sides, case.model().live()) {
        Some(chosen) => chosen == axis,
        None => false,
    }
}

/// Tests that a split stands where a halving is left, and on the axis of the split rule.
pub(crate) fn test_split(
    case: &Case,
    levels: u32,
    sides: &[i64],
    node: u32,
    axis: u32,
) -> Result<(), CheckError>
    requires { AreSidesInside case.now.root sides.now }
    ensures { MatchResult result
        (λ _. (0 < levels) × IsSplitAxis (live case.now.model) (spans_of sides.now) axis)
        (IsSplitReported (live case.now.model) levels (spans_of sides.now) node axis) }
{
    if levels == 0 {
        return Err(CheckError::Depth { node });
    }
    if !is_split_axis(case, sides, axis) {
        return Err(CheckError::Axis { node });
    }
    Ok(())
}
