// A stack as a script names it: words RxC [N], bits RxC, turn SCREEN or window RxC SCREEN.
use crate::choice::{Dimensions, Layer, Layers, Stack, Store};
use script::error::{Problem, RunError};
use script::number::number;
use script::words::{Token, Words};
use std::io::Read;

// The stack that the rest of the line names.
pub fn stack<R: Read>(words: &mut Words<R>) -> Result<Stack, RunError> {
    words.next()?;
    stack_here(words)
}

// The stack that begins at the last word.
pub fn stack_here<R: Read>(words: &mut Words<R>) -> Result<Stack, RunError> {
    let mut layers = Layers::new();
    while let Some(layer) = layer(words)? {
        layers
            .try_push(layer)
            .map_err(|_| words.error(Problem::TooManyLayers))?;
        words.next()?;
    }
    let store = store(words)?;
    Ok(Stack { store, layers })
}

// The next word, which is to be a size.
fn size<R: Read>(words: &mut Words<R>) -> Result<Dimensions, RunError> {
    let (rows, columns) = words.next_size()?;
    Ok(Dimensions { rows, columns })
}

// The layer that begins at the last word, if one does.
fn layer<R: Read>(words: &mut Words<R>) -> Result<Option<Layer>, RunError> {
    match words.word().bytes() {
        b"turn" => Ok(Some(Layer::Turning)),
        b"window" => Ok(Some(Layer::Window(size(words)?))),
        _ => Ok(None),
    }
}

// The store that begins at the last word; the line ends with it.
fn store<R: Read>(words: &mut Words<R>) -> Result<Store, RunError> {
    match words.word().bytes() {
        b"words" => word_store(words),
        b"bits" => {
            let size = size(words)?;
            words.end_line()?;
            Ok(Store::Bits(size))
        }
        _ => Err(words.error(Problem::NoScreenKind)),
    }
}

// The size, and then the words of the area, or as many as the cells want.
fn word_store<R: Read>(words: &mut Words<R>) -> Result<Store, RunError> {
    let size = size(words)?;
    let area = match words.next()? {
        Token::Word => {
            let area = number(words.word().bytes()).ok_or(words.error(Problem::NoNumber))?;
            words.end_line()?;
            area
        }
        Token::LineEnd | Token::End => size.rows.saturating_mul(size.columns),
    };
    Ok(Store::Words { size, area })
}
