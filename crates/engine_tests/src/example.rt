//! Models and cases that tests give as texts. Texts are handed on as parameters, so that no proof computes what a text
//! stands for.

ghost use Rattle.std.specs.Prelude.{◌≤◌, IfOk};
ghost use Rattle.lift_grid.specs.Rectangle.{spans_of, sides_of};
ghost use Rattle.lift_model.specs.Links.{AreLinks};
ghost use Rattle.corner_lift.specs.Case.{most_precision};
ghost use Rattle.corner_lift.specs.Table.{IsTable};

use corner_lift::{Case, fill};
use lift_model::{Links, Model};
use std::alloc::{AllocError, Global};
use std::string::String;
use test_cases::{Asker, Scope, ask_over};
use test_cells::Unreported;

/// Lines that stand between semicolons, each with its line feed.
pub(crate) fn lines_of(alloc: Global, lines: &str) -> Result<Vec<u8>, AllocError> {
    let mut text = Vec::new(alloc);
    for line in lines.split(';') {
        text.extend_from_slice(line.as_bytes())?;
        text.push(b'\n')?;
    }
    Ok(text)
}

/// The model of a text whose lines stand between semicolons; its goal states carry the label `goal`.
pub(crate) fn model_of(alloc: Global, lines: &str) -> Result<Model, Unreported> {
    let text = lines_of(alloc, lines)?;
    test_cases::model_of(alloc, &text, b"goal")
}

/// What is told of the case of a text's model over a region, at that precision.
pub(crate) fn ask_text<A: Asker>(
    alloc: Global,
    lines: &str,
    region: &[u8],
    w: u32,
    asker: &A,
) -> Result<A::Reported, Unreported>
    requires low { 1 ≤ w }
    requires high { w ≤ most_precision }
{
    let model = model_of(alloc, lines)?;
    let scope = Scope {
        region,
        depth: 0,
        w,
    };
    let reported = ask_over(alloc, &model, scope, asker);
    drop(model);
    reported
}

/// The text of a process with parameters, of the choices of its initial state 0 and those of a state 3, if there is one. State 1
/// is the goal, and state 2 is never left.
pub(crate) fn process_of(
    alloc: Global,
    parameters: &str,
    choices: &str,
) -> Result<String, AllocError> {
    let (first, last) = choices.split_once(" / ").unwrap_or((choices, ""));
    let mark = if last.is_empty() { "" } else { ";state 3;" };
    format!(in alloc;
        "@type: MDP;@parameters;{parameters};@model;state 0 init;{first};state 1 goal;action a;1 : 1;state 2;action a;2 : 1{mark}{last}"
    )
}

/// The text of a chain with the parameters p and q, of the row of its initial state 0. State 1 is the goal, and state 2 is never
/// left.
pub(crate) fn chain_of(alloc: Global, row: &str) -> Result<String, AllocError> {
    format!(in alloc;
        "@type: DTMC;@parameters;p q;@model;state 0 init;{row};state 1 goal;1 : 1;state 2;2 : 1"
    )
}

/// The table of the case's root.
pub(crate) fn table_of(alloc: Global, case: &Case, links: &Links) -> Result<Vec<i128>, AllocError>
    requires { AreLinks case.now.model links.now }
    ensures { IfOk result (λ weights. IsTable case.now links.now (spans_of (sides_of case.now.root)) weights.items) }
{
    let mut weights = vec![in alloc; 0i128; links.weights_len()]?;
    fill(case, links, case.root().sides(), &mut weights);
    Ok(weights)
}
