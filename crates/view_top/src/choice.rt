// The slice that a picture shows, by what is asked for.
ghost use Rattle.std.specs.Prelude.{◌≡◌, ◌++◌, ◌∷◌, ◌<ℤ◌, ◌==◌, [], map, pos, IfOk};
ghost use Rattle.std.specs.List.{list_any};
ghost use Rattle.std.specs.Option.{option_map};
ghost use Rattle.lift_frac.specs.Frac.{ratio_of};
ghost use Rattle.view_map.specs.Choice.{axes_of};
ghost use Rattle.view_top.specs.Choice.{admitted, apart, axes_for, axis_for, both_axes, cut_for};
ghost use Rattle.view_top.specs.Choice.{cut_named, cut_with, cuts_for, is_taken, lies_on, slice_for};
ghost use Rattle.view_top.specs.Given.{Gives};
ghost use Rattle.view_words.specs.Given.{wish_data};
ghost use Rattle.lift_model.specs.Model.{live};

use crate::refusal::Refusal;
use cert_text::Head;
use lift_frac::{Frac, cut_at};
use lift_names::Names;
use std::alloc::{AllocError, Global};
use view_map::{Cut, Slice, slice_of, span_at};
use view_words::{Cause, Usage, Wish, is_inside, value_of};

/// The parameters on both axes, where one lies there.
type Axes = (Option<u32>, Option<u32>);

fn lies_on(axis: Option<u32>, parameter: u32) -> bool
    ensures { result ≡ lies_on axis parameter }
{
    match axis {
        None => false,
        Some(other) => other == parameter,
    }
}

// The parameter that is asked for on an axis.
fn axis_for(names: &Names, name: Option<&str>) -> Result<Option<u32>, Cause>
    ensures { result ≡ axis_for names.now (option_map (λ v. v.now) name.entry) }
{
    match name {
        None => Ok(None),
        Some(name) => match names.find(name.as_bytes()) {
            Some(parameter) => Ok(Some(parameter)),
            None => Err(Cause::UnknownName),
        },
    }
}

// Two axes, which no parameter shares.
fn apart(x: Option<u32>, y: Option<u32>) -> Result<Axes, Usage>
    ensures { result ≡ apart x y }
{
    match y {
        Some(parameter) if lies_on(x, parameter) => Err(Usage::Y(Cause::Repeated)),
        _ => Ok((x, y)),
    }
}

fn both_axes(x: Result<Option<u32>, Cause>, y: Result<Option<u32>, Cause>) -> Result<Axes, Usage>
    ensures { result ≡ both_axes x y }
{
    match (x, y) {
        (Err(cause), _) => Err(Usage::X(cause)),
        (Ok(_), Err(cause)) => Err(Usage::Y(cause)),
        (Ok(x), Ok(y)) => apart(x, y),
    }
}

// The parameters that are asked for on both axes.
fn axes_for(names: &Names, wish: &Wish<'_>) -> Result<Axes, Usage>
    ensures { result ≡ axes_for names.now (wish_data wish.now) }
{
    both_axes(axis_for(names, wish.x), axis_for(names, wish.y))
}

// A parameter's value.
fn cut_with(parameter: Option<u32>, value: Option<Frac>) -> Result<Cut, Cause>
    ensures { result ≡ cut_with parameter (option_map ratio_of value) }
{
    let parameter = parameter.ok_or(Cause::UnknownName)?;
    let Frac { num, den } = value.ok_or(Cause::Syntax)?;
    Ok(Cut::new(parameter, num as i64, den as i64))
}

// The value that a text `NAME=VALUE` gives to a parameter.
fn cut_named(names: &Names, text: &str) -> Result<Cut, Cause>
    ensures { result ≡ cut_named names.now text.now }
{
    match cut_at(text, '=') {
        None => Err(Cause::Syntax),
        Some((name, value)) => cut_with(names.find(name.as_bytes()), value_of(value)),
    }
}

fn has_value(given: &[Cut], parameter: u32) -> bool
    ensures { result ≡ list_any (λ c. c.parameter == parameter) given.now }
{
    given.iter().any(|cut| cut.parameter() == parameter)
}

// Whether a parameter lies on an axis, or has a value already.
fn is_taken(axes: Axes, given: &[Cut], parameter: u32) -> bool
    ensures { result ≡ is_taken axes given.now parameter }
{
    lies_on(axes.0, parameter) || lies_on(axes.1, parameter) || has_value(given, parameter)
}

// A value of a parameter that isn't taken, inside the region.
fn admitted(head: &Head, axes: Axes, given: &[Cut], cut: Cut) -> Result<Cut, Cause>
    ensures { result ≡ admitted head.now axes given.now cut }
{
    if is_taken(axes, given, cut.parameter()) {
        return Err(Cause::Repeated);
    }
    let span = span_at(head.root().sides(), cut.parameter());
    let (num, den) = cut.value();
    if is_inside(head.grid().d, span, num, den) {
        Ok(cut)
    } else {
        Err(Cause::Outside)
    }
}

// The value that a text gives to a parameter, beside those that are given already.
fn cut_for(head: &Head, axes: Axes, given: &[Cut], text: &str) -> Result<Cut, Cause>
    ensures { result ≡ cut_for head.now axes given.now text.now }
{
    match cut_named(head.model().names(), text) {
        Ok(cut) => admitted(head, axes, given, cut),
        Err(cause) => Err(cause),
    }
}

fn push_cut(cuts: &mut Vec<Cut>, cut: Cut) -> Result<(), AllocError>
    ensures { IfOk result (λ _. cuts.new.items ≡ cuts.old.items ++ cut ∷ []) }
{
    cuts.push(cut)?;
    Ok(())
}

// The values that the texts give to parameters.
fn cuts_for(alloc: Global, head: &Head, axes: Axes, texts: &[&str]) -> Result<Vec<Cut>, Refusal>
    ensures { Gives (λ cuts. cuts.items)
        (cuts_for head.now axes [] 1 (map (λ t. t.now) texts.now)) result }
{
    let mut given = Vec::new(alloc);
    let mut place = 1;
    for text in texts {
        match cut_for(head, axes, &given, text) {
            Ok(cut) => push_cut(&mut given, cut)?,
            Err(cause) => return Err(Refusal::Usage(Usage::At { place, cause })),
        }
        place += 1;
    }
    Ok(given)
}

// The axes of the slice with these parameters on them, of which those that are left out are chosen.
fn chosen_axes(alloc: Global, head: &Head, axes: Axes) -> Result<Axes, AllocError>
    ensures { IfOk result (λ r. r ≡ axes_of (live head.now.asked.model) axes.0 axes.1) }
{
    let slice = slice_of(alloc, head, axes.0, axes.1, &[])?;
    Ok((slice.x(), slice.y()))
}

/// The slice of a report's region that is asked for.
pub fn slice_for(alloc: Global, head: &Head, wish: &Wish<'_>) -> Result<Slice, Refusal>
    ensures { Gives (λ s. s) (slice_for head.now (wish_data wish.now)) result }
{
    let axes = axes_for(head.model().names(), wish)?;
    let chosen = chosen_axes(alloc, head, axes)?;
    let given = cuts_for(alloc, head, chosen, &wish.at)?;
    Ok(slice_of(alloc, head, axes.0, axes.1, &given)?)
}
