//! Makes a call of the library again and again, for two symbols by turns, and prints a digest of its
//! results.
//!
//! The arguments are the name of a call and a number of turns. Standard input has the two symbols, a
//! line each.
#![tactic(auto)]

mod calls;

use calls::{Call, call_named, run_call};
use std::io::{BufReader, ErrorKind, Read};
use std::process::ExitCode;
use std::rt::Env;
use std::{env, io};

/// Reads the arguments and the symbols, makes the calls, and prints the digest.
fn run(rt: &HostRuntime) -> io::Result<()> {
    let alloc = rt.alloc();
    let args = env::args(rt)?.skip(1).collect::<Vec<String>>(alloc)?;
    let Some((call, turns)) = read_arguments(args.as_slice()) else {
        return Err(io::Error::from(ErrorKind::InvalidInput));
    };
    let mut text = String::new(alloc);
    BufReader::new(alloc, rt.stdin().lock())?.read_to_string(&mut text)?;
    let digest = run_call(alloc, call, turns, text.as_str())?;
    println!(rt; "{digest}")
}

/// Returns the call and the number of turns, or `None` if the arguments are others.
fn read_arguments(args: &[String]) -> Option<(Call, usize)> {
    let [name, turns] = args else {
        return None;
    };
    let call = call_named(name.as_str())?;
    let turns = turns.as_str().parse::<usize>().ok()?;
    Some((call, turns))
}

fn main(rt: HostRuntime) -> ExitCode {
    match run(&rt) {
        Ok(()) => ExitCode::from(0),
        Err(error) => {
            let _ = eprintln!(rt; "demangle_calls: {error}");
            ExitCode::from(1)
        }
    }
}
