//! How the program answers.
ghost use Rattle.std.specs.Prelude.{◌≡◌, [], string_bytes};

use std::alloc::{AllocError, Global};
use std::fmt;
use std::fmt::Write;

/// A line for each answer, or what it means beside it.
#[derive(Clone, Copy)]
pub(crate) enum Style {
    Terse,
    Explained,
}

/// What is answered, in a style.
#[derive(Drop)]
pub(crate) struct Answers {
    heap: Global,
    text: String,
    style: Style,
}

impl Answers {
    /// No answers yet.
    pub(crate) fn new(heap: Global, style: Style) -> Answers {
        Answers {
            heap,
            text: String::new(heap),
            style,
        }
    }

    /// All that was answered.
    pub(crate) fn text(&self) -> &str {
        self.text.as_str()
    }

    /// Forgets what was answered, and gives back its memory: what one line answers is long gone when a later line needs much.
    pub(crate) fn clear(&mut self)
        ensures text { string_bytes self.new.text ≡ [] }
        ensures style { self.new.style ≡ self.old.style }
        ensures heap { self.new.heap ≡ self.old.heap }
    {
        self.text = String::new(self.heap);
    }

    /// Adds a line with an answer.
    pub(crate) fn line<A: fmt::Display + Drop>(&mut self, answer: A) -> Result<(), AllocError> {
        self.text.writeln(answer)
    }

    /// Adds what an answer means, where that is asked for.
    pub(crate) fn explain<M: fmt::Display + Drop>(&mut self, meaning: M) -> Result<(), AllocError> {
        match self.style {
            Style::Terse => Ok(()),
            Style::Explained => writeln!(self.text, "  {meaning}"),
        }
    }

    /// Adds a line with an answer, and what it means.
    pub(crate) fn answer<A: fmt::Display + Drop, M: fmt::Display + Drop>(
        &mut self,
        answer: A,
        meaning: M,
    ) -> Result<(), AllocError> {
        self.line(answer)?;
        self.explain(meaning)
    }
}
