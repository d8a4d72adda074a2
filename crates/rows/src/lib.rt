//! The book that keeps its cases as rows in lent memory.
#![tactic(auto)]

ghost use Rattle.std.specs.Prelude.{◌≡◌, false, [], length, MatchResult};
ghost use Rattle.books.specs.declared.refusal.BookRefusal.TheVariants.{NoBook};
ghost use Rattle.books.specs.Books.{fit_capacity};
ghost use Rattle.rows.specs.Rows.{cases_of, room_of, Sound, rows_keep};

use books::book::{CaseBook, MOST};
use books::refusal::BookRefusal;
use cases::case::{Case, CaseName, State};
use table::Table;

/// A book whose cases are the rows of a table; the rows are its capacity.
#[derive(Drop)]
pub struct RowsBook<'a> {
    table: Table<'a, Case>,
}

impl<'a> RowsBook<'a> {
    /// An empty book over lent rows, of which there have to be 1 to 4,096.
    pub fn over(rows: &'a mut [Case]) -> Result<RowsBook<'a>, BookRefusal>
        ensures { MatchResult result (λ b. Sound b × (cases_of b ≡ []) × (room_of b ≡ length rows.old)) (λ e. (e ≡ NoBook) × (fit_capacity (length rows.old) ≡ false)) }
    {
        if !(1..=MOST).contains(&rows.len()) {
            return Err(BookRefusal::NoBook);
        }
        Ok(RowsBook {
            table: Table::new(rows),
        })
    }
}

impl<'a> CaseBook for RowsBook<'a> {
    ghost cases = { cases_of };

    ghost room = { room_of };

    ghost sound = { Sound };

    ghost keeps = { rows_keep };

    fn count(&self) -> usize {
        self.table.count()
    }

    fn capacity(&self) -> usize {
        self.table.limit()
    }

    fn case_at(&self, at: usize) -> Option<Case> {
        self.table.row_at(at)
    }

    #[tactic(auto, using(crate::proofs::Seen::by_name))]
    fn find(&self, name: &CaseName) -> Option<usize> {
        self.table.find(name)
    }

    #[tactic(auto, using(crate::proofs::Seen::by_name))]
    fn open(&mut self, case: Case) -> Result<(), BookRefusal> {
        if self.table.holds(&case.name) {
            return Err(BookRefusal::Stands);
        }
        let opened = Case {
            state: State::Open,
            ..case
        };
        Ok(self.table.add(opened)?)
    }

    #[tactic(auto, using(crate::proofs::Seen::at_a_place))]
    fn change(&mut self, at: usize, state: State) -> Result<(), BookRefusal> {
        let case = self.table.row_at(at).ok_or(BookRefusal::NoPlace)?;
        Ok(self.table.replace(at, Case { state, ..case })?)
    }
}
