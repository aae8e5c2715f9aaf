// The program's words, its standard streams, and the code that it exits with.
use crate::program::run;
use check_notes::{Status, exit_code};
use lift_base::{StdSink, StdSource};
use std::process::ExitCode;
use std::{env, io};

// The words after the program's name.
fn words(rt: &HostRuntime) -> io::Result<Vec<String>> {
    let mut words = Vec::new(rt.alloc());
    for word in env::args(rt)?.skip(1) {
        words.push(word)?;
    }
    Ok(words)
}

// How the program ends where its words can't be had.
fn status_without_words(error: io::Error) -> Status {
    if error.kind() == io::ErrorKind::OutOfMemory {
        Status::Memory
    } else {
        Status::Usage
    }
}

/// Runs the program on the process's words and standard streams.
pub fn launch(rt: HostRuntime) -> ExitCode {
    let status = match words(&rt) {
        Ok(words) => {
            let mut source = StdSource::new(rt.stdin());
            let mut out = StdSink::new(rt.stdout());
            let mut notes = StdSink::new(rt.stderr());
            run(rt.alloc(), &words, &mut source, &mut out, &mut notes)
        }
        Err(error) => status_without_words(error),
    };
    exit_code(status)
}
