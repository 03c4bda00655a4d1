// How a capture is told.
use capture::watch::Capture;
use line::Line;
use std::io;
use std::io::Write;

pub trait Report: Sized {
    // The report of a new capture.
    fn begin<W: Write>(out: &mut W) -> io::Result<Self>;

    // One octet from the line.
    fn hear<L: Line, W: Write>(
        &mut self,
        out: &mut W,
        capture: &mut Capture<L>,
        octet: u8,
    ) -> io::Result<()>;

    // The end of the capture.
    fn end<L: Line, W: Write>(&self, out: &mut W, capture: &Capture<L>) -> io::Result<()>;
}
