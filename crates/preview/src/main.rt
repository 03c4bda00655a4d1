// The form preview: carries host texts out on a screen and shows what they draw.
#![tactic(auto)]

mod failure;
mod form;
mod line;
mod lines;
mod pages;
mod session;

use failure::Failure;
use form::Form;
use script::number::size;
use session::run;
use std::io::{BufWriter, Write};
use std::process::ExitCode;
use std::{env, fs};
use stores::size::Size;

const USAGE: &str = "usage: preview < SCRIPT
       preview FILE [ROWSxCOLUMNS]
Reads a script of screens and host texts and prints what they do; or carries out
the host text in a file on a new screen, 24x80 unless another size is given
(12x80, 16x64, 24x64), and shows the form with a table of its fields.
  screen SCREEN              a new screen: words RxC [N], bits RxC, turn SCREEN,
                             window RxC SCREEN
  text HH ..                 carry out these characters as a host text
  read PLACE                 write PLACE HH 0|1 (1 = protected)
  remove ROW                 insert ROW
  show                       print the state
  below                      print the lowest screen whole
  pagewrite AREA CURSOR      write the screen as a page into an area of AREA octets
  pageread HH ..             read a page into the screen
Blank lines and everything from # on are skipped.";

// The size that the second argument names, or the largest.
fn screen_size(named: Option<String>) -> Option<Size> {
    let (rows, columns) = match named {
        Some(word) => size(word.as_bytes())?,
        None => (24, 80),
    };
    Size::new(rows, columns).ok()
}

// Shows the form in a file.
fn show(rt: &HostRuntime, file: String, named: Option<String>) -> Result<(), Failure> {
    let size = screen_size(named).ok_or(Failure::NoSize)?;
    let text = fs::read(rt, file.as_str()).map_err(|e| Failure::File(file, e))?;
    let mut out = BufWriter::new(rt.alloc(), rt.stdout())?;
    let form = Form::new(text.as_slice())?;
    let shown = form.show(&mut out, size);
    let flushed = out.flush();
    Ok(shown.and(flushed)?)
}

// Runs the script on standard input.
fn script(rt: &HostRuntime) -> Result<(), Failure> {
    let out = BufWriter::new(rt.alloc(), rt.stdout())?;
    Ok(run(rt.alloc(), rt.stdin(), out)?)
}

// Does what the arguments ask for.
fn answer(rt: &HostRuntime) -> Result<(), Failure> {
    let mut args = env::args(rt).map_err(|_| Failure::NoArguments)?;
    let _ = args.next();
    let Some(file) = args.next() else {
        return script(rt);
    };
    let named = args.next();
    if args.next().is_some() {
        return Err(Failure::Usage(USAGE));
    }
    if file.as_str() == "--help" {
        let _ = rt.println(USAGE);
        return Ok(());
    }
    show(rt, file, named)
}

fn main(rt: HostRuntime) -> ExitCode {
    match answer(&rt) {
        Ok(()) => ExitCode::SUCCESS,
        Err(failure) => {
            let _ = eprintln!(rt; "preview: {failure}");
            ExitCode::FAILURE
        }
    }
}
