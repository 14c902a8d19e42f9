// Runs the program on each stored script that its arguments name, and writes the name before what it prints.
#![tactic(auto)]

use std::rt::Files;
use std::{env, fs, io};

fn run_case(rt: &(impl Files + Print + Eprint), path: &str) -> io::Result<()> {
    println!(rt; "== {path}")?;
    match fs::open(rt, path) {
        Ok(mut script) => {
            stream::serve(rt, &mut script, &mut io::writer(rt));
            Ok(())
        }
        Err(error) => eprintln!(rt; "{path}: {error}"),
    }
}

fn main(rt: HostRuntime) -> io::Result<()> {
    for path in env::args(&rt)?.skip(1) {
        run_case(&rt, path.as_str())?;
    }
    Ok(())
}
