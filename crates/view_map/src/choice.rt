// Which slice is looked at, by what is asked for.
ghost use Rattle.std.specs.Prelude.{◌≡◌, ◌<◌, ◌≤◌, ◌++◌, ◌+ℤ◌, ◌*ℤ◌, ◌<ℤ◌, ◌^◌, pos, length, unsigned_abs, IfOk};
ghost use Rattle.lift_grid.specs.Rectangle.{AreSpans, spans_of};
ghost use Rattle.lift_frac.specs.Limits.{size_limit};
ghost use Rattle.view_map.specs.Choice.{axes_of, cut_of, cut_on, cuts_of, first_live, given_to, is_choice, is_free, is_live, is_off, middle_cut, slice_of};

use crate::part::span_at;
use crate::slice::{Cut, Slice};
use cert_text::Head;
use std::alloc::{AllocError, Global};

/// Parameters are numbered from 0 and below this.
const PARAMETER_LIMIT: u32 = 16;

fn is_live(live: u16, parameter: u32) -> bool
    requires { parameter < 16 }
    ensures { result ≡ is_live live parameter }
{
    (live >> parameter) % 2 == 1
}

/// Whether that parameter doesn't lie on the axis.
fn is_free(axis: Option<u32>, parameter: u32) -> bool
    ensures { result ≡ is_free axis parameter }
{
    match axis {
        None => true,
        Some(other) => other != parameter,
    }
}

/// Whether a parameter is live and doesn't lie on the other axis.
fn is_choice(live: u16, other: Option<u32>, parameter: u32) -> bool
    requires { parameter < 16 }
    ensures { result ≡ is_choice live other parameter }
{
    is_live(live, parameter) && is_free(other, parameter)
}

/// The first live parameter that doesn't lie on the other axis.
fn first_live(live: u16, other: Option<u32>) -> Option<u32>
    ensures { result ≡ first_live live other }
{
    for parameter in 0..PARAMETER_LIMIT {
        if is_choice(live, other, parameter) {
            return Some(parameter);
        }
    }
    None
}

/// The parameters on both axes: those that are asked for, and else the first live ones.
fn axes_of(live: u16, x: Option<u32>, y: Option<u32>) -> (Option<u32>, Option<u32>)
    ensures { result ≡ axes_of live x y }
{
    let across = x.or(first_live(live, y));
    (across, y.or(first_live(live, across)))
}

/// The midpoint of a parameter's span.
fn middle_cut(root: &[i64], d: i64, parameter: u32) -> Cut
    requires spans { AreSpans (spans_of root.now) }
    requires positive { pos 0 <ℤ d }
    requires small { unsigned_abs d < size_limit }
    ensures { result ≡ middle_cut (spans_of root.now) d parameter }
{
    let (low, high) = span_at(root, parameter);
    Cut::new(parameter, low + high, 2 * d)
}

/// The value that is given to a parameter.
fn given_to(given: &[Cut], parameter: u32) -> Option<Cut>
    ensures { result ≡ given_to given.now parameter }
{
    given
        .iter()
        .copied()
        .find(|cut| cut.parameter() == parameter)
}

/// A parameter's value: the one that is given, and else the midpoint.
fn cut_of(root: &[i64], d: i64, given: &[Cut], parameter: u32) -> Cut
    requires spans { AreSpans (spans_of root.now) }
    requires positive { pos 0 <ℤ d }
    requires small { unsigned_abs d < size_limit }
    ensures { result ≡ cut_of (spans_of root.now) d given.now parameter }
{
    match given_to(given, parameter) {
        Some(cut) => cut,
        None => middle_cut(root, d, parameter),
    }
}

/// Whether a parameter lies on no axis.
fn is_off(axes: (Option<u32>, Option<u32>), parameter: u32) -> bool
    ensures { result ≡ is_off axes parameter }
{
    is_free(axes.0, parameter) && is_free(axes.1, parameter)
}

/// Adds a parameter's value, where it lies on no axis.
fn add_cut(
    cuts: &mut Vec<Cut>,
    head: &Head,
    axes: (Option<u32>, Option<u32>),
    given: &[Cut],
    parameter: u32,
) -> Result<(), AllocError>
    ensures { IfOk result (λ _. cuts.new.items
        ≡ cuts.old.items ++ cut_on head.now axes given.now parameter) }
{
    let _ = head.w();
    if is_off(axes, parameter) {
        let root = head.root().sides();
        cuts.push(cut_of(root, head.grid().d, given, parameter))?;
    }
    Ok(())
}

/// The values of the parameters on no axis: those that are given, and else the midpoints.
fn cuts_of(
    alloc: Global,
    head: &Head,
    axes: (Option<u32>, Option<u32>),
    given: &[Cut],
) -> Result<Vec<Cut>, AllocError>
    ensures { IfOk result (λ v. v.items ≡ cuts_of head.now axes given.now) }
{
    let mut cuts = Vec::new(alloc);
    for parameter in 0..head.model().names().len() {
        add_cut(&mut cuts, head, axes, given, parameter)?;
    }
    Ok(cuts)
}

/// The slice that is looked at: on its axes the parameters that are asked for, and else the first
/// live ones; of the others those values that are given, and else the midpoints of their spans.
pub fn slice_of(
    alloc: Global,
    head: &Head,
    x: Option<u32>,
    y: Option<u32>,
    given: &[Cut],
) -> Result<Slice, AllocError>
    ensures { IfOk result (λ s. s ≡ slice_of head.now x y given.now) }
{
    let axes = axes_of(head.model().live(), x, y);
    let cuts = cuts_of(alloc, head, axes, given)?;
    Ok(Slice::new(axes.0, axes.1, cuts))
}
