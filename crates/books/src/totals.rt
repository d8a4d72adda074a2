//! How many cases of a book are in each state.
ghost use Rattle.std.specs.Prelude.{◌≡◌};
ghost use Rattle.cases.specs.Views.{state_view};
ghost use Rattle.books.specs.Totals.{counted, totals_of, Below};

use crate::book::CaseBook;
use crate::iter::Cases;
use cases::case::State;

/// The number of cases in each state.
#[derive(Clone, Copy, Debug, Default, PartialEq, Eq)]
pub struct Totals {
    pub open: usize,
    pub pending: usize,
    pub agreed: usize,
    pub declined: usize,
    pub withdrawn: usize,
}

impl Totals {
    /// Counts one case more, which is in this state.
    fn count(&mut self, state: &State)
        requires { Below 4096 self.old }
        ensures { self.new ≡ counted (state_view state.now) self.old }
    {
        match state {
            State::Open => self.open += 1,
            State::Pending => self.pending += 1,
            State::Agreed(_) => self.agreed += 1,
            State::Declined(_) => self.declined += 1,
            State::Withdrawn(_) => self.withdrawn += 1,
        }
    }
}

/// The totals of a book.
pub fn totals_of<B: CaseBook>(book: &B) -> Totals
    requires { B.sound book.now }
    ensures { result ≡ totals_of (B.cases book.now) }
{
    let mut totals = Totals::default();
    for case in Cases::of(book) {
        totals.count(&case.state);
    }
    totals
}
