// Runs of the program, and what they are compared with.
use crate::models::{are_front, are_lines, end_with, model_text};
use lift_base::{MemSink, Source, SureSource};
use plift_top::{Status, run};
use std::alloc::{AllocError, Global};
use std::process::Abort;
use std::string::String;
use test_cells::{Claim, Unreported, cut_two};

/// The words of a line; none where it is empty.
pub fn words_of(alloc: Global, line: &str, separator: char) -> Result<Vec<String>, AllocError> {
    let mut words = Vec::new(alloc);
    if line.is_empty() {
        return Ok(words);
    }
    for word in line.split(separator) {
        words.push(String::from_str(alloc, word)?)?;
    }
    Ok(words)
}

/// The name of a status.
pub fn status_name(status: Status) -> &'static str {
    match status {
        Status::Done => "Done",
        Status::NotSound => "NotSound",
        Status::Usage => "Usage",
        Status::ModelRefused => "ModelRefused",
        Status::RowsRefused => "RowsRefused",
        Status::ReadFault => "ReadFault",
        Status::WriteFault => "WriteFault",
        Status::TooLong => "TooLong",
        Status::Memory => "Memory",
    }
}

/// Where a run writes, and where it writes notes.
#[derive(Drop)]
pub struct Sinks {
    pub out: MemSink,
    pub notes: MemSink,
}

/// A sink with so much room, which takes so many bytes a call, and of which one call fails: none where it is 0.
pub fn sink(alloc: Global, room: usize, step: usize, call: u64) -> Result<MemSink, AllocError> {
    MemSink::new(alloc, room, step.max(1), Vec::from_slice(alloc, &[call])?)
}

impl Sinks {
    /// Sinks that never fail; that of the output has so much room, and takes so many bytes a call.
    pub fn make(alloc: Global, room: usize, step: usize) -> Result<Sinks, AllocError> {
        Ok(Sinks {
            out: sink(alloc, room, step, 0)?,
            notes: sink(alloc, 100, 3, 0)?,
        })
    }
}

/// The name of the status with which the program ends. Nothing is promised of it, so that no other proof carries what `run`
/// promises.
fn ending<S: Source>(
    alloc: Global,
    words: &Vec<String>,
    source: &mut S,
    sinks: &mut Sinks,
) -> &'static str {
    status_name(run(alloc, words, source, &mut sinks.out, &mut sinks.notes))
}

/// How the program ends: the name of its status, and the notes.
#[derive(Clone, Copy)]
pub struct End<'a> {
    pub status: &'a str,
    pub reported: &'a str,
}

impl End<'_> {
    /// Whether the program ends so.
    pub fn comes<S: Source>(
        self,
        alloc: Global,
        words: &Vec<String>,
        source: &mut S,
        sinks: &mut Sinks,
    ) -> bool {
        let got = ending(alloc, words, source, sinks);
        got == self.status && are_lines(sinks.notes.taken(), self.reported)
    }
}

/// The end without a note.
pub const DONE: End<'static> = End {
    status: "Done",
    reported: "-",
};

/// The end where the output isn't taken.
pub const CUT_OFF: End<'static> = End {
    status: "WriteFault",
    reported: "write fault;",
};

/// How a run ends, and what is written, by the last three cells of a row: the status, the output, and the notes.
pub fn wanted(cells: &str) -> (End<'_>, &str) {
    let (status, written, reported) = cut_two(cells);
    (End { status, reported }, written)
}

/// That the words and the model of a row give what stands beside them: the status, how the output ends, which is empty where that is
/// nothing, and the notes.
pub struct Answered;

impl Claim for Answered {
    fn holds(&self, alloc: Global, row: &str) -> Result<bool, Unreported> {
        let (words, model, rest) = cut_two(row);
        let (want, end) = wanted(rest);
        let mut source = SureSource::new(model_text(alloc, model)?);
        let mut sinks = Sinks::make(alloc, 1000, 1000)?;
        let words = words_of(alloc, words, ' ')?;
        let comes = want.comes(alloc, &words, &mut source, &mut sinks);
        Ok(comes && end_with(sinks.out.taken(), end))
    }
}

// Whether a report is found sound, and nothing else is told.
fn is_sound(alloc: Global, report: &[u8]) -> Result<bool, AllocError> {
    let mut source = SureSource::new(Vec::from_slice(alloc, report)?);
    let mut sinks = Sinks::make(alloc, 100, 100)?;
    let words = words_of(alloc, "check", ' ')?;
    let comes = DONE.comes(alloc, &words, &mut source, &mut sinks);
    Ok(comes && sinks.out.taken().starts_with(b"sound accept "))
}

// Whether a report is written, and is found sound.
fn is_checked(alloc: Global, words: &str, model: &str) -> Result<bool, Unreported> {
    let mut source = SureSource::new(model_text(alloc, model)?);
    let mut sinks = Sinks::make(alloc, 1000, 1000)?;
    let words = words_of(alloc, words, ' ')?;
    let comes = DONE.comes(alloc, &words, &mut source, &mut sinks);
    Ok(comes && is_sound(alloc, sinks.out.taken())?)
}

/// That the report of a row's words and model is found sound, where the row's status is that of a report.
pub struct Checked;

impl Claim for Checked {
    fn holds(&self, alloc: Global, row: &str) -> Result<bool, Unreported> {
        let (words, model, rest) = cut_two(row);
        if rest.starts_with("Done | ") {
            is_checked(alloc, words, model)
        } else {
            Ok(true)
        }
    }
}

/// The words of a job, the name of its model, and what it writes.
#[derive(Clone, Copy)]
pub struct Job<'a> {
    pub words: &'a str,
    pub model: &'a str,
    pub text: &'a str,
}

impl Job<'_> {
    /// Whether the job ends so, and that many bytes are taken from the front of what it writes.
    pub fn ends(
        self,
        alloc: Global,
        want: End<'_>,
        sinks: &mut Sinks,
        count: usize,
    ) -> Result<bool, Unreported> {
        let mut source = SureSource::new(model_text(alloc, self.model)?);
        let words = words_of(alloc, self.words, ' ')?;
        let comes = want.comes(alloc, &words, &mut source, sinks);
        Ok(comes && are_front(sinks.out.taken(), self.text, count))
    }

    // Whether a sink that holds so many bytes takes as many, and the job is cut off unless that is all.
    fn is_cut_off(self, alloc: Global, room: usize) -> Result<bool, Unreported> {
        let want = if room < self.text.len() {
            CUT_OFF
        } else {
            DONE
        };
        let mut sinks = Sinks::make(alloc, room, 1)?;
        self.ends(alloc, want, &mut sinks, room)
    }
}

/// Asserts that a job is cut off wherever a sink's room ends, and is done where there is enough.
pub fn each_front(rt: &impl Abort, alloc: Global, job: Job<'_>) {
    for room in 0..job.text.len() + 1 {
        let holds = job.is_cut_off(alloc, room);
        assert!(rt; matches!(holds, Ok(true)), "{room}: {holds:?}");
    }
}
