//! Why a book refuses.
ghost use Rattle.std.specs.Prelude.{◌≡◌};
ghost use Rattle.books.specs.Refusals.{refusal_number, of_table};

use table::TableRefusal;

/// Why a book is not made, or does not do what it is asked, by the number under which it is reported.
#[derive(Clone, Copy, Debug, PartialEq, Eq)]
pub enum BookRefusal {
    /// The memory is not that of a book.
    NoBook = 50,
    /// No case stands at the place.
    NoPlace = 51,
    /// A case of that name stands.
    Stands = 52,
    /// The book has as many cases as it has room for.
    Full = 53,
}

impl BookRefusal {
    /// The number under which the refusal is reported.
    pub fn number(self) -> u8
        ensures { result ≡ refusal_number self }
    {
        self as u8
    }
}

impl From<TableRefusal> for BookRefusal {
    ghost from_gives = { λ refusal r. r ≡ of_table refusal };

    fn from(refusal: TableRefusal) -> BookRefusal {
        match refusal {
            TableRefusal::NoRow => BookRefusal::NoPlace,
            TableRefusal::Full => BookRefusal::Full,
        }
    }
}
