//! The cases of a book one after the other.
ghost use Rattle.std.specs.Prelude.{◌≡◌};
ghost use Rattle.std.specs.Iterator.{YieldsFirstBy, item_count};
ghost use Rattle.cases.specs.Views.{view};
ghost use Rattle.books.specs.Rest.{book_of, rest_of};

use crate::book::CaseBook;
use cases::case::Case;

/// The cases of a book, in their order: those from the place `at` on are still to come.
#[derive(Drop)]
pub struct Cases<'a, B> {
    book: &'a B,
    at: usize,
}

impl<'a, B: CaseBook> Cases<'a, B> {
    /// All cases of the book.
    pub fn of(book: &'a B) -> Cases<'a, B>
        ensures book { book_of result ≡ book.now }
        ensures cases { rest_of B.cases result ≡ B.cases book.now }
    {
        Cases { book, at: 0 }
    }
}

impl<'a, B: CaseBook> Iterator for Cases<'a, B> {
    type Item = Case;

    ghost can_next = { λ s. B.sound (book_of s) };

    ghost next_gives = { YieldsFirstBy view (rest_of B.cases) };

    ghost remaining = { item_count (rest_of B.cases) };

    #[tactic(auto, using(crate::proofs::Steps::stepping))]
    fn next(&mut self) -> Option<Case> {
        let case = self.book.case_at(self.at)?;
        self.at += 1;
        Some(case)
    }
}
