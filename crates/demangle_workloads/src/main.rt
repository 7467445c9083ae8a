//! Runs a benchmark's workload: fills a template from standard input with digits, calls the library
//! over it, and prints a digest of all results.
//!
//! The arguments are the name of a workload, a number of rounds, and a seed below 2^32. Each round
//! fills the template with other digits, so no call has the input of another.
#![tactic(auto)]

mod digest;
mod template;
mod workload;

use std::alloc::Global;
use std::io::{BufReader, ErrorKind, Read};
use std::process::ExitCode;
use std::rt::Env;
use std::{env, io};
use template::Template;
use workload::{Workload, workload_named};

/// Reads the arguments and the template, runs the workload, and prints its digest.
fn run(rt: &HostRuntime) -> io::Result<()> {
    let alloc = rt.alloc();
    let args = env::args(rt)?.skip(1).collect::<Vec<String>>(alloc)?;
    let Some((workload, rounds, seed)) = read_arguments(args.as_slice()) else {
        return Err(io::Error::from(ErrorKind::InvalidInput));
    };
    let mut text = Vec::new(alloc);
    BufReader::new(alloc, rt.stdin().lock())?.read_to_end(&mut text)?;
    let template = Template::new(alloc, text, seed)?;
    let digest = workload.run(alloc, template, rounds)?;
    println!(rt; "{digest}")
}

/// Returns the workload, the rounds and the seed, or `None` if the arguments are others.
fn read_arguments(args: &[String]) -> Option<(Workload, u32, u32)> {
    let [name, rounds, seed] = args else {
        return None;
    };
    let workload = workload_named(name.as_str())?;
    let rounds = rounds.as_str().parse::<u32>().ok()?;
    let seed = seed.as_str().parse::<u32>().ok()?;
    Some((workload, rounds, seed))
}

fn main(rt: HostRuntime) -> ExitCode {
    match run(&rt) {
        Ok(()) => ExitCode::from(0),
        Err(error) => {
            let _ = eprintln!(rt; "demangle_workloads: {error}");
            ExitCode::from(1)
        }
    }
}
