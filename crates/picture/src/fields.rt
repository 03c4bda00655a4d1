// The fields of a form: the runs of open cells between protected ones, in reading order.
use codes::SPACE;
use edit::cell::{cell_at, cell_count, is_open};
use screen::interface::Screen;
use std::io;
use std::io::Write;
use std::ops::Range;

fn is_visible<S: Screen>(screen: &S, place: usize) -> bool {
    cell_at(screen, place).0 > SPACE
}

// The places of the field that begins at one.
fn field<S: Screen>(screen: &S, start: usize) -> Range<usize> {
    let count = cell_count(screen);
    let end = (start..count).find(|place| !is_open(screen, *place));
    start..end.unwrap_or(count)
}

// The caption before a field: what stands in the protected cells before it in its row, without the spaces around it.
fn caption<S: Screen, W: Write>(
    out: &mut W,
    screen: &S,
    row_start: usize,
    field: usize,
) -> io::Result<()> {
    let start = (row_start..field)
        .rev()
        .find(|place| is_open(screen, *place))
        .map_or(row_start, |open| open + 1);
    let first = (start..field).find(|place| is_visible(screen, *place));
    let last = (start..field)
        .rev()
        .find(|place| is_visible(screen, *place));
    if let (Some(first), Some(last)) = (first, last) {
        for place in first..=last {
            out.write_all(&[cell_at(screen, place).0.max(SPACE)])?;
        }
    }
    Ok(())
}

fn entry<S: Screen, W: Write>(
    out: &mut W,
    screen: &S,
    number: usize,
    field: Range<usize>,
) -> io::Result<()> {
    let start = field.start;
    let Ok((row, column)) = screen.split(start) else {
        return Ok(());
    };
    let length = field.len();
    write!(out, "{number:>5} {row:>4} {column:>7} {length:>7}  ")?;
    caption(out, screen, start - column, start)?;
    out.write_all(b"\n")
}

// The table of the fields. The search goes on behind each field, so that each cell is looked at once.
pub fn table<S: Screen, W: Write>(out: &mut W, screen: &S) -> io::Result<()> {
    out.write_all(b"field  row  column  length  caption\n")?;
    let mut number = 0usize;
    let mut end = 0;
    for place in 0..cell_count(screen) {
        if place >= end && is_open(screen, place) {
            let field = field(screen, place);
            end = field.end;
            number = number.saturating_add(1);
            entry(out, screen, number, field)?;
        }
    }
    Ok(())
}
