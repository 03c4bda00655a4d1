// Each row by its number, with its characters and a map of its protection.
use crate::cells::Cells;
use codes::{FS, GS, HT, RS};
use std::io;
use std::io::Write;

// A character as it stands in a row: HT, FS, GS, RS and the backslash after a backslash.
fn character<W: Write>(out: &mut W, code: u8) -> io::Result<()> {
    match code {
        HT => out.write_all(b"\\t"),
        FS => out.write_all(b"\\f"),
        GS => out.write_all(b"\\g"),
        RS => out.write_all(b"\\r"),
        b'\\' => out.write_all(b"\\\\"),
        _ => out.write_all(&[code]),
    }
}

// All rows, each with its map after it.
pub fn rows<C: Cells, W: Write>(out: &mut W, cells: &C) -> io::Result<()> {
    let columns = cells.width();
    for row in 0..cells.height() {
        let first = row.saturating_mul(columns);
        write!(out, "row {row} |")?;
        for column in 0..columns {
            character(out, cells.cell(first.saturating_add(column)).0)?;
        }
        write!(out, "|\nmap {row} |")?;
        for column in 0..columns {
            let protected = cells.cell(first.saturating_add(column)).1;
            out.write_all(if protected { b"#" } else { b"." })?;
        }
        out.write_all(b"|\n")?;
    }
    Ok(())
}
