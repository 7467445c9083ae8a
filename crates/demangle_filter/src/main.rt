//! Copies standard input to standard output with each Rust symbol demangled.
#![tactic(auto)]

use filter_program::filter::{OUT_OF_MEMORY, USAGE, filter_run, report};
use filter_program::flushing::FlushingOutput;
use std::io::{BufReader, BufWriter, ErrorKind};
use std::process::ExitCode;
use std::rt::Env;
use std::{env, io};

/// Returns the arguments after the program's name.
fn arguments(rt: &(impl Env + AllocGlobal)) -> io::Result<Vec<String>> {
    let args = env::args(rt)?;
    Ok(args.skip(1).collect::<Vec<String>>(rt.alloc())?)
}

/// Runs the program over the standard streams, and returns its exit status.
fn main(rt: HostRuntime) -> ExitCode {
    let alloc = rt.alloc();
    let mut errors = rt.stderr().lock();
    let args = match arguments(&rt) {
        Ok(args) => args,
        Err(error) => {
            if error.kind() == ErrorKind::OutOfMemory {
                return ExitCode::from(report(&mut errors, OUT_OF_MEMORY, 1));
            }
            return ExitCode::from(report(&mut errors, USAGE, 2));
        }
    };
    let Ok(buffer) = BufWriter::new(alloc, rt.stdout().lock()) else {
        return ExitCode::from(report(&mut errors, OUT_OF_MEMORY, 1));
    };
    let output = FlushingOutput::new(buffer);
    let Ok(mut input) = BufReader::new(alloc, output.reader(rt.stdin().lock())) else {
        return ExitCode::from(report(&mut errors, OUT_OF_MEMORY, 1));
    };
    let status = filter_run(
        alloc,
        args.as_slice(),
        &mut input,
        &mut output.writer(),
        &mut errors,
    );
    ExitCode::from(status)
}
