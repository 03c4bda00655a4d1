// Ends inside a script: what a terminal gives when its user ends a line's input and then goes on.
use crate::error::RunError;
use crate::words::{Token, Words};
use std::io;
use std::io::Read;

// Gives one piece a call; an empty one is an end, as after the last.
#[derive(Drop)]
struct Pieces<'a> {
    pieces: &'a [&'a [u8]],
    given: usize,
}

impl<'a> Read for Pieces<'a> {
    fn read(&mut self, buf: &mut [u8]) -> io::Result<usize> {
        let Some(piece) = self.pieces.get(self.given) else {
            return Ok(0);
        };
        self.given += 1;
        let mut piece = *piece;
        piece.read(buf)
    }
}

// The end behind 01 ends the word, and the line goes on; the next one ends the line's octets, and then the script goes on.
#[test]
fn an_end_ends_no_script(rt: HostRuntime) -> Result<(), RunError> {
    let pieces: [&[u8]; 6] = [b"octets 0", b"1", b"", b" 02", b"", b""];
    let mut words = Words::new(Pieces {
        pieces: &pieces,
        given: 0,
    });
    assert_eq!(rt; words.next()?, Token::Word);
    assert_eq!(rt; words.word().bytes(), b"octets".as_slice());
    assert_eq!(rt; words.next_octet()?, Some(1));
    assert_eq!(rt; words.next_octet()?, Some(2));
    assert_eq!(rt; words.next_octet()?, None);
    assert_eq!(rt; words.line(), 1);
    Ok(())
}

// After an end between words the reader is asked again.
#[test]
fn a_script_goes_on_behind_an_end(rt: HostRuntime) -> Result<(), RunError> {
    let pieces: [&[u8]; 5] = [b"a\n", b"", b"b # c", b"", b"\n"];
    let mut words = Words::new(Pieces {
        pieces: &pieces,
        given: 0,
    });
    assert_eq!(rt; words.next()?, Token::Word);
    assert_eq!(rt; words.next()?, Token::LineEnd);
    assert_eq!(rt; words.next()?, Token::End);
    assert_eq!(rt; words.next()?, Token::Word);
    assert_eq!(rt; words.word().bytes(), b"b".as_slice());
    assert_eq!(rt; words.line(), 2);
    assert_eq!(rt; words.next()?, Token::End);
    assert_eq!(rt; words.next()?, Token::LineEnd);
    assert_eq!(rt; words.next()?, Token::End);
    assert_eq!(rt; words.line(), 3);
    Ok(())
}
