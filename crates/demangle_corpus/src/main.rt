//! Compares the library's results with those of the Rust crate, which are read from standard input.
#![tactic(auto)]

use corpus_program::corpus::{CorpusError, Counts, corpus_run};
use std::io::{BufReader, BufWriter};
use std::process::ExitCode;

/// Compares the corpus on standard input and writes to standard output. Reads nothing if a buffer
/// can't be allocated.
fn run(rt: &HostRuntime) -> Result<Counts, CorpusError> {
    let alloc = rt.alloc();
    let Ok(mut input) = BufReader::new(alloc, rt.stdin().lock()) else {
        return Err(CorpusError::Memory);
    };
    let Ok(mut output) = BufWriter::new(alloc, rt.stdout().lock()) else {
        return Err(CorpusError::Memory);
    };
    corpus_run(alloc, &mut input, &mut output)
}

fn main(rt: HostRuntime) -> ExitCode {
    match run(&rt) {
        Ok(counts) if counts.differences == 0 => ExitCode::from(0),
        Ok(_) => ExitCode::from(1),
        Err(fault) => {
            let _ = eprintln!(rt; "demangle_corpus: {fault}");
            ExitCode::from(2)
        }
    }
}
