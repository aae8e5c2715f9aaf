// Writes the lines of a model.
ghost use Rattle.std.specs.Prelude.{◌≡◌, ◌<◌, [], ◌∷◌, length, codes};
ghost use Rattle.std.specs.List.{concat, flat_map};
ghost use Rattle.std.specs.Fmt.{decimal};
ghost use Rattle.lift_base.specs.Outside.{Wrote};
ghost use Rattle.lift_model.specs.Model.{choices};
ghost use Rattle.cert_text.specs.Report.{line, spaced, kind_name, kind_words, parameters_words, size_lines};
ghost use Rattle.cert_text.specs.Report.{goal_states, goal_words, entry_line, row_line};
ghost use Rattle.cert_text.specs.Report.{row_lines, state_lines, rows_lines, model_lines};

use crate::recent_terms::RecentTerms;
use crate::terms::write_terms;
use lift_base::{Sink, Word, WriteFault, write_all, write_words, writes_in_turn};
use lift_model::{Entry, Kind, Model, Row};
use lift_names::Names;

fn kind_name(kind: Kind) -> &'static [u8]
    ensures { result.now ≡ kind_name kind }
{
    match kind {
        Kind::Dtmc => b"dtmc",
        Kind::Mdp => b"mdp",
    }
}

fn write_kind<K: Sink>(out: &mut K, kind: Kind) -> Result<(), WriteFault>
    ensures { Wrote K.taken K.faults out.old out.new result (line (kind_words kind)) }
{
    write_words(
        out,
        &[
            Word::Text(b"kind "),
            Word::Text(kind_name(kind)),
            Word::Text(b"\n"),
        ],
    )
}

fn write_name<K: Sink>(out: &mut K, name: &[u8]) -> Result<(), WriteFault>
    ensures { Wrote K.taken K.faults out.old out.new result (spaced name.now) }
{
    write_words(out, &[Word::Text(b" "), Word::Text(name)])
}

fn write_names<K: Sink>(out: &mut K, names: &Names) -> Result<(), WriteFault>
    ensures { Wrote K.taken K.faults out.old out.new result
        (flat_map (λ name. spaced name) names.now) }
{
    writes_in_turn::<K>();
    for place in 0..names.len() {
        write_name(out, names.get(place))?;
    }
    Ok(())
}

fn write_parameters<K: Sink>(out: &mut K, names: &Names) -> Result<(), WriteFault>
    ensures { Wrote K.taken K.faults out.old out.new result (line (parameters_words names.now)) }
{
    writes_in_turn::<K>();
    write_words(
        out,
        &[
            Word::Text(b"parameters "),
            Word::Count(u64::from(names.len())),
        ],
    )?;
    write_names(out, names)?;
    write_all(out, b"\n")
}

#[tactic(auto, unfolding(crate::specs::Report::size_lines))]
fn write_sizes<K: Sink>(out: &mut K, model: &Model) -> Result<(), WriteFault>
    ensures { Wrote K.taken K.faults out.old out.new result (concat (size_lines model.now)) }
{
    write_words(
        out,
        &[
            Word::Text(b"common "),
            Word::Number(i128::from(model.common())),
            Word::Text(b"\nstates "),
            Word::Count(u64::from(model.states())),
            Word::Text(b"\ninit "),
            Word::Count(u64::from(model.init())),
            Word::Text(b"\n"),
        ],
    )
}

fn goal_count(model: &Model) -> u32
    ensures { result ≡ length (goal_states 0 model.now.goal) }
{
    let mut count = 0;
    for s in 0..model.states() {
        if model.is_goal(s) {
            count += 1;
        }
    }
    count
}

fn write_state<K: Sink>(out: &mut K, s: u32) -> Result<(), WriteFault>
    ensures { Wrote K.taken K.faults out.old out.new result (spaced (decimal s)) }
{
    write_words(out, &[Word::Text(b" "), Word::Count(u64::from(s))])
}

fn write_goal_states<K: Sink>(out: &mut K, model: &Model) -> Result<(), WriteFault>
    ensures { Wrote K.taken K.faults out.old out.new result
        (flat_map (λ s. spaced (decimal s)) (goal_states 0 model.now.goal)) }
{
    writes_in_turn::<K>();
    for s in 0..model.states() {
        if model.is_goal(s) {
            write_state(out, s)?;
        }
    }
    Ok(())
}

fn write_goal<K: Sink>(out: &mut K, model: &Model) -> Result<(), WriteFault>
    ensures { Wrote K.taken K.faults out.old out.new result (line (goal_words model.now.goal)) }
{
    writes_in_turn::<K>();
    let count = goal_count(model);
    write_words(out, &[Word::Text(b"goal "), Word::Count(u64::from(count))])?;
    write_goal_states(out, model)?;
    write_all(out, b"\n")
}

fn write_long<K: Sink>(out: &mut K, entry: &Entry) -> Result<(), WriteFault>
    ensures { Wrote K.taken K.faults out.old out.new result (entry_line entry.now) }
{
    writes_in_turn::<K>();
    write_words(
        out,
        &[Word::Text(b"to "), Word::Count(u64::from(entry.target))],
    )?;
    write_terms(out, &entry.poly)?;
    write_all(out, b"\n")
}

// Most entries have one term or two, as one before them has, and are written at once.
fn write_entry<K: Sink>(
    out: &mut K,
    entry: &Entry,
    recent: &mut RecentTerms,
) -> Result<(), WriteFault>
    ensures { Wrote K.taken K.faults out.old out.new result (entry_line entry.now) }
{
    match recent.text_of(&entry.poly) {
        Some(text) => write_words(
            out,
            &[
                Word::Text(b"to "),
                Word::Count(u64::from(entry.target)),
                Word::Text(text),
                Word::Text(b"\n"),
            ],
        ),
        None => write_long(out, entry),
    }
}

fn write_entries<K: Sink>(
    out: &mut K,
    entries: &[Entry],
    recent: &mut RecentTerms,
) -> Result<(), WriteFault>
    ensures { Wrote K.taken K.faults out.old out.new result (flat_map entry_line entries.now) }
{
    writes_in_turn::<K>();
    for entry in entries {
        write_entry(out, entry, recent)?;
    }
    Ok(())
}

#[tactic(auto, unfolding(crate::specs::Report::row_line))]
fn write_row_line<K: Sink>(out: &mut K, s: u32, a: u32, count: usize) -> Result<(), WriteFault>
    ensures { Wrote K.taken K.faults out.old out.new result (row_line s a count) }
{
    write_words(
        out,
        &[
            Word::Text(b"row "),
            Word::Count(u64::from(s)),
            Word::Text(b" "),
            Word::Count(u64::from(a)),
            Word::Text(b" "),
            Word::Count(count as u64),
            Word::Text(b"\n"),
        ],
    )
}

fn write_row<K: Sink>(
    out: &mut K,
    s: u32,
    a: u32,
    row: &Row,
    recent: &mut RecentTerms,
) -> Result<(), WriteFault>
    ensures { Wrote K.taken K.faults out.old out.new result (concat (row_lines s a row.now)) }
{
    writes_in_turn::<K>();
    let entries = row.entries();
    write_row_line(out, s, a, entries.len())?;
    write_entries(out, entries, recent)
}

fn write_state_rows<K: Sink>(
    out: &mut K,
    model: &Model,
    s: u32,
    recent: &mut RecentTerms,
) -> Result<(), WriteFault>
    requires { s < length model.now.states }
    ensures { Wrote K.taken K.faults out.old out.new result
        (concat (state_lines s (choices model.now s))) }
{
    writes_in_turn::<K>();
    for a in 0..model.choices(s) {
        write_row(out, s, a, model.row(s, a), recent)?;
    }
    Ok(())
}

fn write_rows<K: Sink>(out: &mut K, model: &Model) -> Result<(), WriteFault>
    ensures { Wrote K.taken K.faults out.old out.new result (concat (rows_lines model.now.states)) }
{
    writes_in_turn::<K>();
    let mut recent = RecentTerms::new();
    for s in 0..model.states() {
        write_state_rows(out, model, s, &mut recent)?;
    }
    Ok(())
}

/// Writes the lines of a model, from its kind to its last entry. Takes no memory.
pub fn write_model<K: Sink>(out: &mut K, model: &Model) -> Result<(), WriteFault>
    ensures { Wrote K.taken K.faults out.old out.new result (concat (model_lines model.now)) }
{
    writes_in_turn::<K>();
    write_kind(out, model.kind())?;
    write_parameters(out, model.names())?;
    write_sizes(out, model)?;
    write_goal(out, model)?;
    write_rows(out, model)
}
