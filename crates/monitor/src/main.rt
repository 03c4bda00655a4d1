// The line monitor: reads a capture of line octets as a script, and prints what was on the line.
#![tactic(auto)]

mod listing;
mod octets;
mod report;
mod run;

use listing::Listing;
use octets::Octets;
use report::Report;
use run::run;
use script::error::RunError;
use std::env;
use std::io::{BufWriter, Write};
use std::process::ExitCode;

const USAGE: &str = "usage: monitor [--messages] < SCRIPT
Reads a script of line octets and prints one line for each octet; with --messages, one line
for each message or fault, and a summary.
  monitor sync|async   a new line with a receiver behind it
  octets HH ..         octets from the line
  send HH ..           the octets that the line sends for these codes
Blank lines and everything from # on are skipped.";

// What the arguments ask for.
#[derive(Clone, Copy)]
enum Wanted {
    Octets,
    Listing,
    Help,
}

// None where the arguments do not fit.
fn asked(rt: &HostRuntime) -> Option<Wanted> {
    let args = env::args(rt).ok()?;
    let mut wanted = Wanted::Octets;
    for arg in args.skip(1) {
        wanted = match arg.as_str() {
            "--messages" => Wanted::Listing,
            "--help" => Wanted::Help,
            _ => return None,
        };
    }
    Some(wanted)
}

// Why the program fails.
#[derive(Drop)]
enum Failure {
    Usage,
    Script(RunError),
    // standard output takes no more
    Output,
}

impl From<RunError> for Failure {
    fn from(e: RunError) -> Failure {
        Failure::Script(e)
    }
}

// Runs the script on standard input; what it brought before a failure is written too.
fn script<P: Report + Drop>(rt: &HostRuntime) -> Result<(), Failure> {
    let mut out = BufWriter::new(rt.alloc(), rt.stdout()).map_err(RunError::from)?;
    let result = run::<P, _, _>(rt.stdin(), &mut out);
    let flushed = out.flush();
    result?;
    flushed.map_err(|_| Failure::Output)
}

// Prints what the arguments ask for.
fn answer(rt: &HostRuntime) -> Result<(), Failure> {
    match asked(rt).ok_or(Failure::Usage)? {
        Wanted::Octets => script::<Octets>(rt),
        Wanted::Listing => script::<Listing>(rt),
        Wanted::Help => rt.println(USAGE).map_err(|_| Failure::Output),
    }
}

fn main(rt: HostRuntime) -> ExitCode {
    let Err(failure) = answer(&rt) else {
        return ExitCode::SUCCESS;
    };
    let _ = match failure {
        Failure::Usage => rt.eprintln(USAGE),
        Failure::Script(e) => eprintln!(rt; "monitor: {e}"),
        Failure::Output => Ok(()),
    };
    ExitCode::FAILURE
}
