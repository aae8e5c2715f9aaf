// The parameters' names.
ghost use Rattle.std.specs.Prelude.{◌≡◌, ◌≤◌, ◌<◌, ◌+◌, ◌++◌, ◌∷◌, [], length, map, reverse, codes, IfOk};
ghost use Rattle.lift_names.specs.Names.{names_limit};
ghost use Rattle.lift_model.specs.Valid.{most_parameters};
ghost use Rattle.line_text.specs.Shown.{Says};
ghost use Rattle.cert_text.specs.Lines.{name_of, parameters_of};
ghost use Rattle.line_text.specs.Parts.{counted};
ghost use Rattle.cert_text.specs.Shown.{name_in, distinct_names};

use crate::head_lines::{counted, names};
use lift_names::Names;
use line_text::{TextCause, Words, is_number};
use std::alloc::Global;

/// How many parameters there are at most.
const MOST_PARAMETERS: usize = 16;

/// How many bytes a name has at most.
const MOST_NAME_BYTES: usize = 64;

/// Adds a name that differs from those before it and isn't long.
#[tactic(auto, using(crate::proofs::NameLoop::old_name, crate::proofs::NameLoop::long_name, crate::proofs::NameLoop::new_name))]
fn add(names: &mut Names, name: &[u8]) -> Result<(), TextCause>
    requires { length names.old + 1 < names_limit }
    ensures value { Says (λ x. x) result (name_in (reverse names.old) name.now) }
    ensures after { IfOk result (λ _. names.new ≡ names.old ++ name.now ∷ []) }
{
    if !names.push(name)? {
        return Err(TextCause::Syntax);
    }
    if name.len() > MOST_NAME_BYTES {
        return Err(TextCause::Limit);
    }
    Ok(())
}

/// The names, each of which differs from those before it and isn't long.
fn distinct_names(alloc: Global, words: &[&[u8]]) -> Result<Names, TextCause>
    requires { length words.now ≤ 64 }
    ensures { Says (λ n. n) result (distinct_names (map (λ w. w.now) words.now)) }
{
    let mut names = Names::new(alloc);
    for word in words {
        match add(&mut names, word) {
            Ok(()) => {}
            Err(cause) => return Err(cause),
        }
    }
    Ok(names)
}

/// As many names as are announced.
fn announced<'t>(alloc: Global, words: &Words<'t>) -> Result<Vec<&'t [u8]>, TextCause>
    ensures { Says (λ v. map (λ w. w.now) v.items) result
        (counted (codes "parameters") name_of words.now) }
{
    let (count, rest) = counted(words, b"parameters")?;
    let names = names(alloc, rest)?;
    if is_number(&count, names.len() as u64) {
        Ok(names)
    } else {
        Err(TextCause::Syntax)
    }
}

/// The parameters' names.
#[tactic(auto, using(crate::proofs::HeadSteps::few_names))]
pub(crate) fn parameters_of(alloc: Global, words: &Words) -> Result<Names, TextCause>
    ensures value { Says (λ n. n) result (parameters_of words.now) }
    ensures few { IfOk result (λ n. length n ≤ most_parameters) }
{
    let names = announced(alloc, words)?;
    if names.len() > MOST_PARAMETERS {
        return Err(TextCause::Limit);
    }
    distinct_names(alloc, &names)
}
