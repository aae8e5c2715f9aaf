// The terms of an entry.
ghost use Rattle.std.specs.Prelude.{◌≡◌, ◌≤◌, ◌<◌, ◌+◌, [], Ok, None, Some, pos, length, not, replicate, set, All, IfOk, IfSome};
ghost use Rattle.line_text.specs.Reading.{line_at};
ghost use Rattle.cert_text.specs.Head.{entries_at};
ghost use Rattle.line_text.specs.Parts.{between};
ghost use Rattle.line_text.specs.Shown.{Says};
ghost use Rattle.line_text.specs.Follow.{Follows};
ghost use Rattle.lift_model.specs.Valid.{most_choices, most_parameters, most_states};
ghost use Rattle.cert_text.specs.Shown.{coefficient_in, entry_by, entry_in, has_mark, terms_of, set_in, term_first, term_in};

use crate::head_lines::{counted, is_above, short_counted};
use crate::known::KnownTerms;
use lift_base::{Lines, Source};
use lift_model::{Entry, SharedPoly};
use lift_poly::MultiAffine;
use line_text::{
    Decimal, FileError, TextCause, Words, between, calls_add_up, due, fault, take_line,
};
use std::alloc::{AllocError, Global};

/// How many parameters an entry has at most.
const MOST_ROW_PARAMETERS: u32 = 4;

/// How many terms an entry has at most.
const MOST_TERMS: usize = 16;

/// Below this size each coefficient lies.
const COEFFICIENT_LIMIT: u128 = 1 << 100;

/// The coefficient, if it isn't 0 and below the limit in size.
fn coefficient_in(number: &Decimal) -> Result<i128, TextCause>
    ensures { result ≡ coefficient_in number.now }
{
    match number.narrow() {
        Some(0) => Err(TextCause::Syntax),
        Some(n) if n.unsigned_abs() < COEFFICIENT_LIMIT => Ok(n),
        _ => Err(TextCause::Limit),
    }
}

/// The set, if it is above the one before it and few parameters are in it or were seen.
fn set_in(
    number: &Decimal,
    parameters: u32,
    seen: u16,
    before: Option<u64>,
) -> Result<u16, TextCause>
    requires { parameters ≤ most_parameters }
    ensures value { result ≡ set_in parameters seen before number.now }
{
    if !is_above(before, number) {
        return Err(TextCause::Syntax);
    }
    match number.narrow() {
        Some(n) if 0 <= n && n < i128::from(2_u64.pow(parameters)) => {
            let set = n as u16;
            if (seen | set).count_ones() > MOST_ROW_PARAMETERS {
                return Err(TextCause::Limit);
            }
            Ok(set)
        }
        _ => Err(TextCause::Limit),
    }
}

/// The term of a set and a coefficient.
fn term_in(
    set: &Decimal,
    coefficient: &Decimal,
    parameters: u32,
    seen: u16,
    before: Option<u64>,
) -> Result<(u16, i128), TextCause>
    requires { parameters ≤ most_parameters }
    ensures { result ≡ term_in parameters seen before (set.now, coefficient.now) }
{
    match set_in(set, parameters, seen, before) {
        Ok(set) => match coefficient_in(coefficient) {
            Ok(coefficient) => Ok((set, coefficient)),
            Err(cause) => Err(cause),
        },
        Err(cause) => Err(cause),
    }
}

/// The term of a set of few digits and such a coefficient.
fn short_term(
    set: u64,
    coefficient: i128,
    parameters: u32,
    seen: u16,
    before: Option<u64>,
) -> Option<(u16, i128)>
    requires { parameters ≤ most_parameters }
    ensures { IfSome result (λ t. term_in parameters seen before (pos set, coefficient) ≡ Ok t) }
{
    let is_above = match before {
        None => true,
        Some(n) => n < set,
    };
    if !is_above || set >= 2_u64.pow(parameters) {
        return None;
    }
    let set = set as u16;
    if (seen | set).count_ones() > MOST_ROW_PARAMETERS {
        return None;
    }
    if coefficient == 0 || coefficient.unsigned_abs() >= COEFFICIENT_LIMIT {
        return None;
    }
    Some((set, coefficient))
}

/// The term of numbers of few digits that the first word writes, and those behind it; none where it
/// writes no such term.
fn short_first<'t>(
    words: &Words<'t>,
    parameters: u32,
    seen: u16,
    before: Option<u64>,
) -> Option<((u16, i128), Words<'t>)>
    requires { parameters ≤ most_parameters }
    ensures { IfSome result (λ x. term_first None parameters seen before words.now ≡ Some (Ok x.0, x.1)) }
{
    let (set, coefficient, rest) = words.short_pair(b':')?;
    let term = short_term(set, coefficient, parameters, seen, before)?;
    Some((term, rest))
}

/// What the first word says of a term, and the words behind it; none where there is no word, or it
/// writes no pair.
fn read_first<'t>(
    words: &Words<'t>,
    parameters: u32,
    seen: u16,
    before: Option<u64>,
) -> Option<(Result<(u16, i128), TextCause>, Words<'t>)>
    requires { parameters ≤ most_parameters }
    ensures { result ≡ term_first None parameters seen before words.now }
{
    if let Some((term, rest)) = short_first(words, parameters, seen, before) {
        return Some((Ok(term), rest));
    }
    let (pair, rest) = words.pair(b':')?;
    Some((term_in(&pair.0, &pair.1, parameters, seen, before), rest))
}

/// The same behind terms that may have a fault, which is told then.
fn term_first<'t>(
    fault: Option<TextCause>,
    words: &Words<'t>,
    parameters: u32,
    seen: u16,
    before: Option<u64>,
) -> Option<(Result<(u16, i128), TextCause>, Words<'t>)>
    requires { parameters ≤ most_parameters }
    ensures { result ≡ term_first fault parameters seen before words.now }
{
    match fault {
        None => read_first(words, parameters, seen, before),
        Some(cause) => {
            let (_, rest) = words.pair(b':')?;
            Some((Err(cause), rest))
        }
    }
}

/// The polynomial that words write by its terms, by ascending set; or the cause that is told behind the
/// form of all.
#[tactic(auto, using(crate::proofs::EntryTerms::read_terms))]
pub(crate) fn terms_of(
    alloc: Global,
    words: Words,
    parameters: u32,
) -> Result<Result<SharedPoly, TextCause>, TextCause>
    requires { parameters ≤ most_parameters }
    ensures { Says (λ read. read) result (terms_of parameters words.entry) }
{
    let mut terms = Vec::with_capacity(alloc, words.count_of(b':').min(MOST_TERMS))?;
    let mut seen = 0;
    let mut before = None;
    let mut fault = None;
    let mut rest = words;
    while !rest.is_empty() {
        let Some((read, behind)) = term_first(fault, &rest, parameters, seen, before) else {
            return Err(TextCause::Syntax);
        };
        match read {
            Ok(term) => {
                terms.push(term)?;
                seen |= term.0;
                before = Some(u64::from(term.0));
            }
            Err(cause) => {
                terms.push((0, 0))?;
                fault = Some(cause);
            }
        }
        rest = behind;
    }
    if terms.len() > MOST_TERMS {
        return Err(TextCause::Syntax);
    }
    match fault {
        None => {
            let poly = SharedPoly::new(alloc, MultiAffine::from_vec(terms))?;
            Ok(Ok(poly))
        }
        Some(cause) => Ok(Err(cause)),
    }
}

/// Whether the state's mark is another one.
fn is_free(marks: &[u32], mark: u32, s: u64) -> bool
    requires { s < length marks.now }
    ensures { result ≡ not (has_mark mark marks.now s) }
{
    marks[s as usize] != mark
}

/// The number, if it is below that end.
fn below(n: u64, end: u64) -> Result<u64, TextCause>
    ensures value { Says (λ n. n) result (between 0 end (pos n)) }
    ensures range { IfOk result (λ n. n < end) }
{
    if n < end {
        Ok(n)
    } else {
        Err(TextCause::Limit)
    }
}

/// Reads the entries of rows, one row after another. It keeps the terms that were read last, and for each state the
/// mark of the last row that leads to it.
#[derive(Drop)]
pub(crate) struct EntryReader {
    alloc: Global,
    parameters: u32,
    known: KnownTerms,
    marks: Vec<u32>,
    mark: u32,
}

impl std::marker::Model for EntryReader {
    ghost use Rattle.cert_text.specs.Recent.{ReadsEntries, IsEntryReader};

    ghost Value = { ReadsEntries };

    ghost view = { λ r. record { parameters = r.parameters; marks = r.marks.items; mark = r.mark } };

    ghost invariant = { λ r. IsEntryReader r.known.texts.items
        (record { parameters = r.parameters; marks = r.marks.items; mark = r.mark }) };
}

impl EntryReader {
    /// No row was read yet.
    #[tactic(auto, using(crate::proofs::EntryLoop::unmarked))]
    pub fn new(alloc: Global, states: u32, parameters: u32) -> Result<Self, AllocError>
        requires states { states ≤ most_states }
        requires parameters { parameters ≤ most_parameters }
        ensures { IfOk result (λ r. r ≡ record { parameters = parameters; marks = replicate states 0; mark = 0 }) }
    {
        Ok(EntryReader {
            alloc,
            parameters,
            known: KnownTerms::new(alloc),
            marks: vec![in alloc; 0u32; states as usize]?,
            mark: 0,
        })
    }

    /// How many states there are.
    pub fn states(&self) -> u32
        ensures { result ≡ length self.now.marks }
    {
        self.marks.len() as u32
    }

    /// The entry with that target and the terms that words write. A state that the row leads to is taken.
    #[inline(never)]
    fn entry_in(&mut self, target: &Decimal, words: Words) -> Result<Entry, TextCause>
        ensures value { Says (λ e. e) result
            (entry_in (length self.old.marks) self.old.parameters (has_mark self.old.mark self.old.marks) target.now words.entry) }
        ensures range { IfOk result (λ e. e.target < length self.old.marks) }
        ensures same { self.new ≡ self.old }
    {
        let poly = self.known.terms(self.alloc, words, self.parameters)?;
        let target = between(target, 0, self.marks.len() as u64)?;
        if !is_free(&self.marks, self.mark, target) {
            return Err(TextCause::Syntax);
        }
        match poly {
            Ok(poly) => Ok(Entry {
                target: target as u32,
                poly,
            }),
            Err(cause) => Err(cause),
        }
    }

    /// The entry with a target of few digits, and the terms that words write.
    #[inline(always)]
    fn short_entry(&mut self, target: u64, words: Words) -> Result<Entry, TextCause>
        ensures value { Says (λ e. e) result
            (entry_in (length self.old.marks) self.old.parameters (has_mark self.old.mark self.old.marks) (pos target) words.entry) }
        ensures range { IfOk result (λ e. e.target < length self.old.marks) }
        ensures same { self.new ≡ self.old }
    {
        let poly = self.known.terms(self.alloc, words, self.parameters)?;
        let target = below(target, self.marks.len() as u64)?;
        if !is_free(&self.marks, self.mark, target) {
            return Err(TextCause::Syntax);
        }
        match poly {
            Ok(poly) => Ok(Entry {
                target: target as u32,
                poly,
            }),
            Err(cause) => Err(cause),
        }
    }

    /// The entry that the words of its line tell.
    fn entry_by(&mut self, words: &Words) -> Result<Entry, TextCause>
        ensures value { Says (λ e. e) result
            (entry_by (length self.old.marks) self.old.parameters (has_mark self.old.mark self.old.marks) words.now) }
        ensures range { IfOk result (λ e. e.target < length self.old.marks) }
        ensures same { self.new ≡ self.old }
    {
        if let Some((target, rest)) = short_counted(words, b"to") {
            return self.short_entry(target, rest);
        }
        let (target, rest) = counted(words, b"to")?;
        self.entry_in(&target, rest)
    }

    /// The line that is due, as an entry.
    fn entry_line<S: Source>(&mut self, lines: &mut Lines, src: &mut S) -> Result<Entry, FileError>
        ensures value { Follows S.left S.faults (λ x. x)
            (line_at (entry_by (length self.old.marks) self.old.parameters (has_mark self.old.mark self.old.marks)))
            lines.old lines.new src.old src.new result }
        ensures range { IfOk result (λ x. x.target < length self.old.marks) }
        ensures same { self.new ≡ self.old }
    {
        due(lines, src)?;
        let read = self.entry_by(&Words::of(lines.line()));
        take_line(lines, read)
    }

    /// The row leads to that state.
    fn mark_target(&mut self, target: u32)
        requires { target < length self.old.marks }
        ensures { self.new ≡ record self.old { marks = set self.old.marks target self.old.mark } }
    {
        self.marks[target as usize] = self.mark;
    }

    /// The next row begins, which leads to no state yet.
    fn begin_row(&mut self)
        requires { self.old.mark < most_choices }
        ensures value { self.new ≡ record self.old { mark = self.old.mark + 1 } }
        ensures free { All (λ m. m < self.new.mark) self.new.marks }
    {
        self.mark += 1;
    }

    /// Room for so many entries.
    fn room(&self, count: u32) -> Result<Vec<Entry>, AllocError>
        ensures { IfOk result (λ x. x.items ≡ []) }
    {
        Vec::with_capacity(self.alloc, count as usize)
    }

    /// The entries of the next row, so many, whose targets differ.
    pub fn read<S: Source>(
        &mut self,
        lines: &mut Lines,
        src: &mut S,
        count: u32,
    ) -> Result<Vec<Entry>, FileError>
        requires ready { lines.old.failure ≡ None }
        requires mark { self.old.mark < most_choices }
        ensures value { Follows S.left S.faults (λ x. x.items)
            (entries_at (length self.old.marks) self.old.parameters [] count)
            lines.old lines.new src.old src.new result }
        ensures count { IfOk result (λ x. length x.items ≡ count) }
        ensures states { length self.new.marks ≡ length self.old.marks }
        ensures parameters { self.new.parameters ≡ self.old.parameters }
        ensures mark { self.new.mark ≡ self.old.mark + 1 }
    {
        calls_add_up::<S>();
        self.begin_row();
        let Ok(mut entries) = self.room(count) else {
            return Err(fault(lines, TextCause::Memory));
        };
        for _ in 0..count {
            match self.entry_line(lines, src) {
                Ok(entry) => {
                    self.mark_target(entry.target);
                    match entries.push(entry) {
                        Ok(()) => {}
                        Err(_) => return Err(fault(lines, TextCause::Memory)),
                    }
                }
                Err(error) => return Err(error),
            }
        }
        Ok(entries)
    }
}
