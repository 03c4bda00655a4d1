// The words of a script, from any reader in one pass, with a fixed amount of memory.
ghost use Rattle.std.specs.Prelude.{◌≡◌, ◌≢◌, ◌+◌, ◌<◌, ◌≤◌, ◌↔◌, false, IsTrue, if◌then◌else◌, Some, IfOk, IfSome, OnOk, OnSome};
ghost use Rattle.std.specs.Iterator.{at_most};
ghost use Rattle.script.specs.Hex.{octet_in};
ghost use Rattle.script.specs.Number.{number_in, size_in};
ghost use Rattle.script.specs.Words.{text_of, left, octets_left, line_after, YieldsOctet};
ghost use Rattle.script.specs.declared.words.Token.TheVariants.{End};
ghost use Rattle.std.specs.declared.ops.ControlFlow.TheVariants.{Break};

use crate::error::{Problem, RunError, ScriptError};
use crate::hex::octet;
use crate::input::Input;
use crate::number::{number, size};
use crate::word::Word;
use std::io;
use std::io::Read;
use std::ops::ControlFlow;

// What comes next. Blank lines have an end too; the last line may want its LF. The word itself stands in `Words`, where
// errors read it too.
#[derive(Clone, Copy, PartialEq, Eq, Debug)]
pub enum Token {
    Word,
    LineEnd,
    End,
}

#[derive(Drop)]
pub struct Words<R> {
    input: Input<R>,
    word: Word,
    // the last token's line, and the next octet's
    line: u64,
    next_line: u64,
    // whether the last word, which stands there either way, comes again
    again: bool,
    // whether the end, at which `lines` stopped, comes again
    ended: bool,
}

fn is_blank(octet: u8) -> bool {
    matches!(octet, b' ' | b'\t' | b'\r')
}

fn ends_word(octet: u8) -> bool {
    is_blank(octet) || matches!(octet, b'\n' | b'#')
}

// Skips blanks and a comment, and takes what begins a word or the LF behind them.
fn skip<R: Read>(input: &mut Input<R>) -> io::Result<Option<u8>>
    ensures fewer { IfOk result (λ next. OnSome next (input.new < input.old)) }
    ensures kept { input.new ≤ input.old }
{
    match input.next_behind(|octet| is_blank(octet))? {
        Some(b'#') => input.next_behind(|octet| octet != b'\n'),
        next => Ok(next),
    }
}

// Takes the rest of a word.
fn take_word<R: Read>(input: &mut Input<R>, word: &mut Word) -> io::Result<()>
    ensures { input.new ≤ input.old }
{
    while let Some(octet) = input.next_if(|octet| !ends_word(octet))? {
        word.push(octet);
    }
    Ok(())
}

impl<R: Read> Words<R> {
    pub fn new(reader: R) -> Words<R>
        ensures line { result.line ≡ 1 }
        ensures next { result.next_line ≡ 1 }
    {
        Words {
            input: Input::new(reader),
            word: Word::new(),
            line: 1,
            next_line: 1,
            again: false,
            ended: false,
        }
    }

    // The number of the last token's line, from 1.
    pub fn line(&self) -> u64
        ensures { result ≡ self.now.line }
    {
        self.line
    }

    // The last word.
    pub fn word(&self) -> &Word
        ensures { result.now ≡ self.now.word }
    {
        &self.word
    }

    // What is wrong with the last word, or with the line where it ends.
    pub fn error(&self, problem: Problem) -> RunError
        ensures { result ≡ RunError.Script (record { line = self.now.line; word = self.now.word; problem = problem }) }
    {
        RunError::Script(ScriptError {
            line: self.line,
            word: self.word,
            problem,
        })
    }

    // The next token; `word` then has the word, and `line` its line.
    pub fn next(&mut self) -> io::Result<Token>
        ensures fewer { IfOk result (λ token. token ≢ End → left self.new < left self.old) }
        ensures kept { left self.new ≤ left self.old }
        ensures taken { OnOk result (self.new.again ≡ false) }
        ensures line { self.new.line ≡ (if self.old.again then self.old.line else self.old.next_line) }
        ensures next { IfOk result (λ token. self.new.next_line ≡ (if self.old.again then self.old.next_line else line_after token self.new.line)) }
    {
        if self.again {
            self.again = false;
            return Ok(Token::Word);
        }
        self.line = self.next_line;
        self.word = Word::new();
        if self.ended {
            self.ended = false;
            return Ok(Token::End);
        }
        match skip(&mut self.input)? {
            None => Ok(Token::End),
            Some(b'\n') => {
                self.next_line = self.line.saturating_add(1);
                Ok(Token::LineEnd)
            }
            Some(first) => {
                self.word.push(first);
                take_word(&mut self.input, &mut self.word)?;
                Ok(Token::Word)
            }
        }
    }

    // The next octet of the line, until there is none.
    pub fn next_octet(&mut self) -> Result<Option<u8>, RunError>
        ensures named { IfOk result (λ next. IfSome next (λ octet. octet_in (text_of self.new.word) ≡ Some octet)) }
        ensures fewer { IfOk result (λ next. OnSome next (left self.new < left self.old)) }
    {
        match self.next()? {
            Token::Word => {
                let octet = octet(self.word.bytes()).ok_or_else(|| self.error(Problem::NoOctet))?;
                Ok(Some(octet))
            }
            Token::LineEnd | Token::End => Ok(None),
        }
    }

    // The next word, which is to be a number.
    pub fn next_number(&mut self) -> Result<usize, RunError>
        ensures { IfOk result (λ number. number_in (text_of self.new.word) ≡ Some number) }
    {
        self.next()?;
        number(self.word.bytes()).ok_or_else(|| self.error(Problem::NoNumber))
    }

    // The next word, which is to be a size: rows and columns.
    pub fn next_size(&mut self) -> Result<(usize, usize), RunError>
        ensures { IfOk result (λ size. size_in (text_of self.new.word) ≡ Some size) }
    {
        self.next()?;
        size(self.word.bytes()).ok_or_else(|| self.error(Problem::NoSize))
    }

    // Skips the rest of the line.
    pub fn skip_line(&mut self) -> Result<(), RunError> {
        while self.next()? == Token::Word {}
        Ok(())
    }

    // Nothing more may stand in the line.
    pub fn end_line(&mut self) -> Result<(), RunError> {
        match self.next()? {
            Token::Word => Err(self.error(Problem::LeftOver)),
            Token::LineEnd | Token::End => Ok(()),
        }
    }

    // The octets of the rest of the line.
    pub fn octets(&mut self) -> Octets<'_, R>
        ensures { octets_left result ≡ left self.old + 1 }
    {
        Octets { words: Some(self) }
    }

    // Runs `line` at the first word of each line, to the end, or to a line at which it breaks.
    // That line's first word then comes again, and so does the end, so that a run of lines within another asks no reader again.
    pub fn lines<F: FnMut(&mut Words<R>) -> Result<ControlFlow<()>, RunError>>(
        &mut self,
        mut line: F,
    ) -> Result<ControlFlow<()>, RunError>
        requires { F.IsAlwaysCallable line }
        ensures { IfOk result (λ flow. IsTrue self.new.again ↔ flow ≡ Break tt) }
    {
        // `line` may do anything with the words, so only a count ends this loop.
        for _ in 0..u64::MAX {
            match self.next()? {
                Token::Word => {
                    if line(self)?.is_break() {
                        self.again = true;
                        return Ok(ControlFlow::Break(()));
                    }
                }
                Token::LineEnd => {}
                Token::End => {
                    self.ended = true;
                    return Ok(ControlFlow::Continue(()));
                }
            }
        }
        Err(RunError::Io(io::Error::from(io::ErrorKind::TimedOut)))
    }
}

// The octets of the rest of a line, after an error none.
#[derive(Drop)]
pub struct Octets<'a, R> {
    words: Option<&'a mut Words<R>>,
}

impl<'a, R: Read> Iterator for Octets<'a, R> {
    type Item = Result<u8, RunError>;

    ghost next_gives = { λ _ r t. YieldsOctet r t };

    ghost remaining = { λ s. at_most (octets_left s) };

    fn next(&mut self) -> Option<Result<u8, RunError>> {
        let words = self.words.take()?;
        match words.next_octet() {
            Ok(None) => None,
            Ok(Some(octet)) => {
                self.words = Some(words);
                Some(Ok(octet))
            }
            Err(e) => Some(Err(e)),
        }
    }
}
