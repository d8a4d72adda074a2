//! Taking a line apart into words.
//!
//! Blanks part words. In double quotes a blank belongs to the word, `\"` and `\\` stand for a quote and a backslash, and
//! `\xHH` for any byte. A `#` in a word's place starts a comment.
use crate::faults::{LineFault, ScriptError};
use crate::hex::{hex_digit, pair};
use std::alloc::{AllocError, Global};

/// Where in a line the splitter is.
#[derive(Clone, Copy)]
enum Place {
    Between,
    Word,
    Quoted,
    Escape,
    FirstDigit,
    /// Behind this first digit.
    SecondDigit(u8),
    Comment,
}

#[derive(Drop)]
struct Splitter {
    heap: Global,
    words: Vec<Vec<u8>>,
    word: Vec<u8>,
    place: Place,
}

impl Splitter {
    fn new(heap: Global) -> Splitter {
        Splitter {
            heap,
            words: Vec::new(heap),
            word: Vec::new(heap),
            place: Place::Between,
        }
    }

    /// Adds a byte to the word, and goes on at a place.
    fn keep(&mut self, byte: u8, place: Place) -> Result<(), ScriptError> {
        self.word.push(byte)?;
        self.place = place;
        Ok(())
    }

    /// Ends the word.
    fn end_word(&mut self) -> Result<(), ScriptError> {
        let word = std::mem::replace(&mut self.word, Vec::new(self.heap));
        self.words.push(word)?;
        self.place = Place::Between;
        Ok(())
    }

    /// Takes the next byte of the line.
    fn take(&mut self, byte: u8) -> Result<(), ScriptError> {
        match (self.place, byte) {
            (Place::Comment, _) | (Place::Between, b' ' | b'\t' | b'\r') => {}
            (Place::Word, b' ' | b'\t' | b'\r') => self.end_word()?,
            (Place::Between, b'#') => self.place = Place::Comment,
            (Place::Between | Place::Word, b'"') => self.place = Place::Quoted,
            (Place::Between | Place::Word, _) => self.keep(byte, Place::Word)?,
            (Place::Quoted, b'"') => self.place = Place::Word,
            (Place::Quoted, b'\\') => self.place = Place::Escape,
            (Place::Quoted, _) | (Place::Escape, b'"' | b'\\') => self.keep(byte, Place::Quoted)?,
            (Place::Escape, b'x') => self.place = Place::FirstDigit,
            (Place::FirstDigit, _) if hex_digit(byte).is_some() => {
                self.place = Place::SecondDigit(byte);
            }
            (Place::SecondDigit(high), _) => {
                let escaped = pair(&[high, byte]).ok_or(LineFault::UnknownEscape)?;
                self.keep(escaped, Place::Quoted)?;
            }
            (Place::Escape | Place::FirstDigit, _) => return Err(LineFault::UnknownEscape.into()),
        }
        Ok(())
    }

    /// The words, at the end of the line.
    fn finish(mut self) -> Result<Vec<Vec<u8>>, ScriptError> {
        match self.place {
            Place::Between | Place::Comment => {}
            Place::Word => self.end_word()?,
            _ => return Err(LineFault::UnclosedQuote.into()),
        }
        Ok(self.words)
    }
}

/// The words of a line.
pub(crate) fn split(heap: Global, line: &[u8]) -> Result<Vec<Vec<u8>>, ScriptError> {
    let mut splitter = Splitter::new(heap);
    for byte in line {
        splitter.take(*byte)?;
    }
    splitter.finish()
}
