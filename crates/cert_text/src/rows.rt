// The rows of a head.
ghost use Rattle.std.specs.Prelude.{◌≡◌, ◌≤◌, ◌<◌, ◌-◌, ◌++◌, ◌∷◌, [], length, map, None, IfOk};
ghost use Rattle.std.specs.List.{sum_by};
ghost use Rattle.std.specs.Str.{bytes_eq};
ghost use Rattle.std.specs.Fmt.{decimal};
ghost use Rattle.line_text.specs.Words.{words};
ghost use Rattle.line_text.specs.Reading.{line_at};
ghost use Rattle.line_text.specs.Follow.{Follows};
ghost use Rattle.lift_model.specs.Valid.{most_parameters, most_states, most_choices, most_transitions};
ghost use Rattle.cert_text.specs.Lines.{row_of};
ghost use Rattle.cert_text.specs.Head.{row_at, is_row_of, further_at, behind_first, state_at, states_at};
ghost use Rattle.cert_text.specs.Rows.{SeesRow, tells, Leaves};

use crate::entry_line::EntryReader;
use crate::head_lines::row_of;
use lift_base::{Lines, Source};
use lift_model::{Kind, Row};
use line_text::{
    Decimal, FileError, TextCause, Words, calls_add_up, due, fault, is_number, take_line,
};
use std::alloc::{AllocError, Global};

/// How many choices a model has at most.
const MOST_CHOICES: u32 = 131_072;

/// How many transitions a model has at most.
const MOST_TRANSITIONS: u32 = 262_144;

/// How many choices and transitions are left.
#[derive(Clone, Copy)]
pub(crate) struct Left {
    pub choices: u32,
    pub transitions: u32,
}

impl Left {
    /// What is left behind a row of so many entries.
    fn behind_row(self, count: u32) -> Left
        ensures choices { result.choices ≡ self.choices - 1 }
        ensures transitions { result.transitions ≡ self.transitions - count }
    {
        Left {
            choices: self.choices.saturating_sub(1),
            transitions: self.transitions.saturating_sub(count),
        }
    }
}

/// The shape of a model: its kind, and how many states and parameters it has.
#[derive(Clone, Copy)]
pub(crate) struct Shape {
    pub kind: Kind,
    pub states: u32,
    pub parameters: u32,
}

/// Whether a word writes that number.
fn writes(word: &[u8], n: u32) -> bool
    ensures { result ≡ bytes_eq word.now (decimal n) }
{
    match Decimal::read(word) {
        Some(number) => is_number(&number, u64::from(n)),
        None => false,
    }
}

/// Whether the first word writes that number.
#[tactic(auto, using(crate::proofs::RowWords::short_tells))]
fn tells(words: &Words, n: u32) -> bool
    ensures { result ≡ tells n words.now }
{
    if let Some((number, _)) = words.short() {
        return number == u64::from(n);
    }
    match words.first() {
        Err(_) => false,
        Ok((word, _)) => writes(word, n),
    }
}

/// Whether a line is one of a row of state s.
#[tactic(auto, using(crate::proofs::RowWords::row_tells))]
fn is_row_of(line: &[u8], s: u32) -> bool
    ensures { result ≡ is_row_of s (words line.now) }
{
    match Words::of(line).first() {
        Err(_) => false,
        Ok((key, rest)) => key == b"row".as_slice() && tells(&rest, s),
    }
}

/// Whether the line that is due is one of a row of state s. It is left at the front.
fn row_due<S: Source>(lines: &mut Lines, src: &mut S, s: u32) -> Result<bool, FileError>
    ensures { SeesRow S.left S.faults s lines.old lines.new src.old src.new result }
{
    due(lines, src)?;
    Ok(is_row_of(lines.line(), s))
}

/// Keeps a row.
fn keep_row(rows: &mut Vec<Row>, row: Row) -> Result<(), AllocError>
    ensures { IfOk result (λ _. rows.new.items ≡ rows.old.items ++ row ∷ []) }
{
    rows.push(row)?;
    Ok(())
}

/// Keeps a state's rows.
fn keep_state(all: &mut Vec<Vec<Row>>, rows: Vec<Row>) -> Result<(), AllocError>
    ensures { IfOk result (λ _. map (λ v. v.items) all.new.items ≡ map (λ v. v.items) all.old.items ++ rows.items ∷ []) }
{
    all.push(rows)?;
    Ok(())
}

/// Reads the rows of a head, one after another.
#[derive(Drop)]
struct RowReader {
    alloc: Global,
    kind: Kind,
    entries: EntryReader,
    left: Left,
}

impl std::marker::Model for RowReader {
    ghost use Rattle.std.specs.Prelude.{length};
    ghost use Rattle.cert_text.specs.Rows.{ReadsRows, IsLeft};

    ghost Value = { ReadsRows };

    ghost view = { λ r. record {
      shape = record { kind = r.kind; states = length r.entries.marks; parameters = r.entries.parameters };
      left = r.left;
    } };

    ghost invariant = { λ r. IsLeft r.entries.mark r.left };
}

impl RowReader {
    /// No row was read yet.
    fn new(alloc: Global, shape: Shape) -> Result<Self, AllocError>
        requires states { shape.states ≤ most_states }
        requires parameters { shape.parameters ≤ most_parameters }
        ensures { IfOk result (λ r. r ≡ record {
          shape = shape;
          left = record { choices = most_choices; transitions = most_transitions };
        }) }
    {
        Ok(RowReader {
            alloc,
            kind: shape.kind,
            entries: EntryReader::new(alloc, shape.states, shape.parameters)?,
            left: Left {
                choices: MOST_CHOICES,
                transitions: MOST_TRANSITIONS,
            },
        })
    }

    /// How many states there are.
    fn states(&self) -> u32
        ensures { result ≡ self.now.shape.states }
    {
        self.entries.states()
    }

    /// The line that is due, as how many entries the row of state s and choice a has.
    fn row_line<S: Source>(
        &self,
        lines: &mut Lines,
        src: &mut S,
        s: u32,
        a: u32,
    ) -> Result<u32, FileError>
        ensures value { Follows S.left S.faults (λ x. x)
            (line_at (row_of s a self.now.left.choices self.now.left.transitions))
            lines.old lines.new src.old src.new result }
        ensures some { IfOk result (λ _. 0 < self.now.left.choices) }
    {
        due(lines, src)?;
        let words = Words::of(lines.line());
        let read = row_of(self.alloc, &words, s, a, self.left);
        take_line(lines, read)
    }

    /// The row of state s and choice a, whose first line is due.
    fn row<S: Source>(
        &mut self,
        lines: &mut Lines,
        src: &mut S,
        s: u32,
        a: u32,
    ) -> Result<Row, FileError>
        ensures value { Follows S.left S.faults (λ x. x)
            (row_at self.old.shape.states self.old.shape.parameters self.old.left.choices self.old.left.transitions s a)
            lines.old lines.new src.old src.new result }
        ensures shape { self.new.shape ≡ self.old.shape }
        ensures some { IfOk result (λ _. 0 < self.old.left.choices) }
        ensures choices { IfOk result (λ _. self.new.left.choices ≡ self.old.left.choices - 1) }
        ensures transitions { IfOk result (λ row. self.new.left.transitions ≡ self.old.left.transitions - length row) }
    {
        calls_add_up::<S>();
        let count = self.row_line(lines, src, s, a)?;
        self.left = self.left.behind_row(count);
        let entries = self.entries.read(lines, src, count)?;
        Ok(Row::new(entries))
    }

    /// The rows of state s behind its first.
    fn further<S: Source>(
        &mut self,
        lines: &mut Lines,
        src: &mut S,
        s: u32,
    ) -> Result<Vec<Row>, FileError>
        requires { lines.old.failure ≡ None }
        ensures value { Follows S.left S.faults (λ x. x.items)
            (further_at self.old.shape.states self.old.shape.parameters self.old.left.choices self.old.left.transitions s 1)
            lines.old lines.new src.old src.new result }
        ensures shape { self.new.shape ≡ self.old.shape }
        ensures left { IfOk result (λ x. Leaves self.old.left self.new.left (length x.items) (sum_by length x.items)) }
    {
        calls_add_up::<S>();
        let mut rows = Vec::new(self.alloc);
        let mut a = 1;
        loop {
            match row_due(lines, src, s) {
                Err(error) => return Err(error),
                Ok(false) => return Ok(rows),
                Ok(true) => match self.row(lines, src, s, a) {
                    Err(error) => return Err(error),
                    Ok(row) => match keep_row(&mut rows, row) {
                        Ok(()) => a += 1,
                        Err(_) => return Err(fault(lines, TextCause::Memory)),
                    },
                },
            }
        }
    }

    /// The rows of state s behind its first. A chain has none.
    fn behind_first<S: Source>(
        &mut self,
        lines: &mut Lines,
        src: &mut S,
        s: u32,
    ) -> Result<Vec<Row>, FileError>
        requires { lines.old.failure ≡ None }
        ensures value { Follows S.left S.faults (λ x. x.items)
            (behind_first self.old.shape.kind self.old.shape.states self.old.shape.parameters
            self.old.left.choices self.old.left.transitions s)
            lines.old lines.new src.old src.new result }
        ensures shape { self.new.shape ≡ self.old.shape }
        ensures left { IfOk result (λ x. Leaves self.old.left self.new.left (length x.items) (sum_by length x.items)) }
    {
        calls_add_up::<S>();
        match self.kind {
            Kind::Dtmc => Ok(Vec::new(self.alloc)),
            Kind::Mdp => self.further(lines, src, s),
        }
    }

    /// A row before others. One alone takes no more memory than it needs.
    fn with_first(&self, first: Row, others: Vec<Row>) -> Result<Vec<Row>, AllocError>
        ensures { IfOk result (λ v. v.items ≡ first ∷ others.items) }
    {
        if others.is_empty() {
            let mut rows = Vec::with_capacity(self.alloc, 1)?;
            rows.push(first)?;
            return Ok(rows);
        }
        let mut rows = others;
        rows.insert(0, first)?;
        Ok(rows)
    }

    /// The rows of state s.
    fn state<S: Source>(
        &mut self,
        lines: &mut Lines,
        src: &mut S,
        s: u32,
    ) -> Result<Vec<Row>, FileError>
        ensures value { Follows S.left S.faults (λ x. x.items)
            (state_at self.old.shape.kind self.old.shape.states self.old.shape.parameters
            self.old.left.choices self.old.left.transitions s)
            lines.old lines.new src.old src.new result }
        ensures shape { self.new.shape ≡ self.old.shape }
        ensures left { IfOk result (λ x. Leaves self.old.left self.new.left (length x.items) (sum_by length x.items)) }
    {
        calls_add_up::<S>();
        let first = self.row(lines, src, s, 0)?;
        let others = self.behind_first(lines, src, s)?;
        match self.with_first(first, others) {
            Ok(rows) => Ok(rows),
            Err(_) => Err(fault(lines, TextCause::Memory)),
        }
    }

    /// The rows of all states.
    fn all_states<S: Source>(
        &mut self,
        lines: &mut Lines,
        src: &mut S,
    ) -> Result<Vec<Vec<Row>>, FileError>
        requires { lines.old.failure ≡ None }
        ensures { Follows S.left S.faults (λ x. map (λ v. v.items) x.items)
            (states_at self.old.shape.kind self.old.shape.states self.old.shape.parameters self.old.shape.states
            self.old.left.choices self.old.left.transitions 0)
            lines.old lines.new src.old src.new result }
    {
        calls_add_up::<S>();
        let mut all = Vec::new(self.alloc);
        for s in 0..self.states() {
            match self.state(lines, src, s) {
                Err(error) => return Err(error),
                Ok(rows) => match keep_state(&mut all, rows) {
                    Ok(()) => {}
                    Err(_) => return Err(fault(lines, TextCause::Memory)),
                },
            }
        }
        Ok(all)
    }
}

/// The rows of a model of that shape.
pub(crate) fn states<S: Source>(
    alloc: Global,
    lines: &mut Lines,
    src: &mut S,
    shape: Shape,
) -> Result<Vec<Vec<Row>>, FileError>
    requires ready { lines.old.failure ≡ None }
    requires states { shape.states ≤ most_states }
    requires parameters { shape.parameters ≤ most_parameters }
    ensures { Follows S.left S.faults (λ x. map (λ v. v.items) x.items)
        (states_at shape.kind shape.states shape.parameters shape.states most_choices most_transitions 0)
        lines.old lines.new src.old src.new result }
{
    calls_add_up::<S>();
    match RowReader::new(alloc, shape) {
        Ok(mut reader) => reader.all_states(lines, src),
        Err(_) => Err(fault(lines, TextCause::Memory)),
    }
}
