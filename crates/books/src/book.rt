//! The interface of a case book.
ghost use Rattle.std.specs.Prelude.{◌≡◌, ℕ, List, [], ◌∷◌, ◌++◌, length, is_ok, if◌then◌else◌};
ghost use Rattle.std.specs.List.{slice_get};
ghost use Rattle.std.specs.Option.{option_map};
ghost use Rattle.cases.specs.Cases.{CaseValue};
ghost use Rattle.cases.specs.Views.{view, name_view, state_view};
ghost use Rattle.books.specs.Books.{as_opened, place_of, changed, case_named, with_case_named, Keeps};
ghost use Rattle.books.specs.Refusals.{open_answer, change_answer};

use crate::refusal::BookRefusal;
use cases::case::{Case, CaseName, State};

/// The most cases that a book has room for.
pub const MOST: usize = 4096;

/// A book of cases. It means a list of cases and a capacity. What it has to hold of itself is `sound`: making a book ensures
/// it, and each call asks for it and keeps it.
pub trait CaseBook {
    ghost cases: { Self → List CaseValue };

    ghost room: { Self → ℕ };

    // A condition in each call, and no invariant: a rule of the project, so that a form can hold a book by value.
    ghost sound: { Self → Type 0 };

    ghost keeps: { Keeps cases room sound };

    /// How many cases stand.
    fn count(&self) -> usize
        requires { sound self.now }
        ensures { result ≡ length (cases self.now) };

    /// How many cases there is room for.
    fn capacity(&self) -> usize
        requires { sound self.now }
        ensures { result ≡ room self.now };

    /// The case at a place.
    fn case_at(&self, at: usize) -> Option<Case>
        requires { sound self.now }
        ensures { option_map view result ≡ slice_get (cases self.now) at };

    /// The place of the case of this name.
    fn find(&self, name: &CaseName) -> Option<usize>
        requires { sound self.now }
        ensures { result ≡ place_of (name_view name.now) (cases self.now) };

    /// Adds a case at the end, in the state open, unless one of its name stands or the book is full.
    fn open(&mut self, case: Case) -> Result<(), BookRefusal>
        requires { sound self.old }
        ensures sound { sound self.new }
        ensures room { room self.new ≡ room self.old }
        ensures answer { result ≡ open_answer (room self.old) (cases self.old) (view case) }
        ensures cases { cases self.new ≡ (if is_ok result then cases self.old ++ as_opened (view case) ∷ [] else cases self.old) };

    /// Sets the state of the case at a place.
    fn change(&mut self, at: usize, state: State) -> Result<(), BookRefusal>
        requires { sound self.old }
        ensures sound { sound self.new }
        ensures room { room self.new ≡ room self.old }
        ensures answer { result ≡ change_answer at (cases self.old) }
        ensures cases { cases self.new ≡ changed at (state_view state) (cases self.old) };

    /// The case of this name.
    #[tactic(auto, using(table::proofs::Bridges::by_place))]
    fn look(&self, name: &CaseName) -> Option<Case>
        requires { sound self.now }
        ensures { option_map view result ≡ case_named (name_view name.now) (cases self.now) }
    {
        self.case_at(self.find(name)?)
    }

    /// Sets the state of the case of this name. Where there is none, nothing changes.
    #[tactic(auto, using(table::proofs::Bridges::by_place))]
    fn set_state(&mut self, name: &CaseName, state: State)
        requires { sound self.old }
        ensures sound { sound self.new }
        ensures room { room self.new ≡ room self.old }
        ensures cases { cases self.new ≡ with_case_named (name_view name.now) (state_view state) (cases self.old) }
    {
        if let Some(at) = self.find(name) {
            // A case stands at the place that was found, so this is not refused.
            let _ = self.change(at, state);
        }
    }
}
