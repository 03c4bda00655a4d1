// Carries out host texts and prints what each leaves. A line is the rows and the columns of a new screen, and then texts
// as codes in hexadecimal, each closed by a slash; cursor, lock, light and held text go on from text to text.
#![tactic(auto)]

use codes::SPACE;
use edit::cell::{cell_at, cell_count};
use host::carry::carry_out;
use host::state::State;
use numbered::Numbered;
use screen::interface::Screen;
use screen::refusal::Refusal;
use std::io;
use std::str::SplitWhitespace;
use stores::map_store::MapStore;
use stores::size::Size;
use turning::turning::Turning;
use window::extent::Extent;
use window::window::Window;

// Why a line is not carried out.
#[derive(Drop)]
enum LineError {
    Refused(Refusal),
    Io(io::Error),
}

impl From<Refusal> for LineError {
    fn from(refusal: Refusal) -> LineError {
        LineError::Refused(refusal)
    }
}

impl From<io::Error> for LineError {
    fn from(e: io::Error) -> LineError {
        LineError::Io(e)
    }
}

// The cells that are no open spaces, each as its place and its code, with 80 added where it is protected.
fn show_cells<S: Screen>(rt: &HostRuntime, screen: &S) -> io::Result<()> {
    print!(rt; "cells")?;
    for place in 0..cell_count(screen) {
        match cell_at(screen, place) {
            (code, true) => print!(rt; " {place}:{:02X}", code | 0x80)?,
            (SPACE, false) => {}
            (code, false) => print!(rt; " {place}:{code:02X}")?,
        }
    }
    println!(rt; "")
}

fn show_state(rt: &HostRuntime, state: &State, taken: bool) -> io::Result<()> {
    let (cursor, locked, light) = (state.cursor, state.locked, state.light);
    print!(rt; "cursor {cursor} lock {locked} light {light} taken {taken} held")?;
    if let Some(text) = state.held() {
        for code in text {
            print!(rt; " {code:02X}")?;
        }
    } else {
        print!(rt; " -")?;
    }
    println!(rt; "")
}

// Carries out the texts of a line.
fn run_texts<S: Screen>(
    rt: &HostRuntime,
    screen: &mut S,
    words: SplitWhitespace<'_>,
) -> io::Result<()> {
    let mut state = State::new();
    let mut text = Vec::new(rt.alloc());
    for word in words {
        if let Ok(code) = u8::from_str_radix(word, 16) {
            text.push(code)?;
        } else {
            let taken = carry_out(screen, &mut state, text.as_slice());
            show_state(rt, &state, taken)?;
            show_cells(rt, screen)?;
            text.clear();
        }
    }
    Ok(())
}

// The number in a word; 0, which no screen has, where there is none.
fn number(word: Option<&str>) -> usize {
    word.and_then(|digits| digits.parse::<usize>().ok())
        .unwrap_or(0)
}

// On a store of the size that the line begins with, or else a window over a turned store of 24 rows of 80.
fn run_line(rt: &HostRuntime, line: &str) -> Result<(), LineError> {
    let mut words = line.split_whitespace();
    let rows = number(words.next());
    let columns = number(words.next());
    if let Ok(size) = Size::new(rows, columns) {
        return Ok(run_texts(rt, &mut MapStore::new(size), words)?);
    }
    let mut store = MapStore::new(Size::new(24, 80)?);
    let mut turned = Turning::new(&mut store);
    let extent = Extent::within(&turned, rows, columns)?;
    Ok(run_texts(rt, &mut Window::new(&mut turned, extent), words)?)
}

fn main(rt: HostRuntime) -> io::Result<()> {
    for line in rt.lines(rt.alloc()) {
        match run_line(&rt, line?.as_str()) {
            Ok(()) => {}
            Err(LineError::Refused(refusal)) => println!(rt; "refused {}", refusal.number())?,
            Err(LineError::Io(e)) => return Err(e),
        }
    }
    Ok(())
}
