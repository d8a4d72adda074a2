//! Rows that have names, in lent memory.
//!
//! A table means the rows that were added, in their order; its limit is the number of rows that it was lent. What is found,
//! added and replaced is the same for every type of row, so it is proved once.
#![tactic(auto)]

ghost use Rattle.std.specs.Prelude.{◌≡◌, ◌≤◌, Bool, [], ◌∷◌, ◌++◌, length, is_ok, if◌then◌else◌, slice_set};
ghost use Rattle.std.specs.List.{slice_get, position};
ghost use Rattle.table.specs.Lists.{place, first, any};
ghost use Rattle.table.specs.Meaning.{limit_of, add_answer, replace_answer};

use std::marker::Model;

/// What a table may hold: a row that answers whether it is called by a name.
pub trait Row: Copy {
    type Name;

    ghost called: { Self → Self.Name → Bool };

    /// Whether the row has this name.
    fn is_called(&self, name: &Self::Name) -> bool
        ensures { result ≡ called self.now name.now };
}

/// Why a table does not do what it is asked.
#[derive(Clone, Copy, Debug, PartialEq, Eq)]
pub enum TableRefusal {
    /// No row stands at the place.
    NoRow,
    /// As many rows stand as the table has room for.
    Full,
}

/// Rows in lent memory: the first `count` of them are those that were added. The memory is lent, so the count stands beside it.
/// Clauses see the rows that stand, and how many more there is room for.
#[derive(Drop)]
pub struct Table<'a, R> {
    rows: &'a mut [R],
    count: usize,
}

impl<'a, R> Model for Table<'a, R> {
    ghost use Rattle.std.specs.Prelude.{◌≤◌, ◌-◌, length, take};
    ghost use Rattle.table.specs.Value.{TableValue};

    ghost Value = { TableValue R };

    ghost view = { λ t. record { rows = take t.count t.rows.now; free = length t.rows.now - t.count } };
}

/// The place of the first row of this name.
fn place_in<R: Row>(rows: &[R], name: &R::Name) -> Option<usize>
    ensures { result ≡ position (λ x. R.called x name.now) rows.now }
{
    rows.iter().position(|row| row.is_called(name))
}

impl<'a, R: Row> Table<'a, R> {
    /// An empty table; what stands in the lent rows is given up.
    pub fn new(rows: &'a mut [R]) -> Table<'a, R>
        ensures rows { result.rows ≡ [] }
        ensures limit { limit_of result ≡ length rows.old }
    {
        Table { rows, count: 0 }
    }

    /// How many rows stand.
    pub fn count(&self) -> usize
        ensures value { result ≡ length self.now.rows }
        ensures within { result ≤ limit_of self.now }
    {
        self.standing().len()
    }

    /// How many rows there is room for.
    pub fn limit(&self) -> usize
        ensures { result ≡ limit_of self.now }
    {
        self.rows.len()
    }

    /// The rows that stand.
    fn standing(&self) -> &[R]
        ensures { result.now ≡ self.now.rows }
    {
        &self.rows[..self.count.min(self.rows.len())]
    }

    /// The row at a place.
    pub fn row_at(&self, at: usize) -> Option<R>
        ensures { result ≡ slice_get self.now.rows at }
    {
        self.standing().get(at).copied()
    }

    /// The place of the first row of this name.
    pub fn find(&self, name: &R::Name) -> Option<usize>
        ensures { result ≡ place (λ x. R.called x name.now) self.now.rows }
    {
        place_in(self.standing(), name)
    }

    /// The first row of this name.
    #[tactic(auto, using(crate::proofs::Bridges::by_place))]
    pub fn look(&self, name: &R::Name) -> Option<R>
        ensures { result ≡ first (λ x. R.called x name.now) self.now.rows }
    {
        self.row_at(self.find(name)?)
    }

    /// Whether a row of this name stands.
    #[tactic(auto, using(crate::proofs::Bridges::by_place))]
    pub fn holds(&self, name: &R::Name) -> bool
        ensures { result ≡ any (λ x. R.called x name.now) self.now.rows }
    {
        self.find(name).is_some()
    }

    /// Adds a row behind the others, where there is room.
    pub fn add(&mut self, row: R) -> Result<(), TableRefusal>
        ensures limit { limit_of self.new ≡ limit_of self.old }
        ensures answer { result ≡ add_answer (length self.old.rows) (limit_of self.old) }
        ensures rows { self.new.rows ≡ (if is_ok result then self.old.rows ++ row ∷ [] else self.old.rows) }
    {
        if self.count >= self.rows.len() {
            return Err(TableRefusal::Full);
        }
        self.rows[self.count] = row;
        self.count += 1;
        Ok(())
    }

    /// Puts a row in the place of another.
    pub fn replace(&mut self, at: usize, row: R) -> Result<(), TableRefusal>
        ensures limit { limit_of self.new ≡ limit_of self.old }
        ensures answer { result ≡ replace_answer at (length self.old.rows) }
        ensures rows { self.new.rows ≡ slice_set self.old.rows at row }
    {
        if at >= self.count.min(self.rows.len()) {
            return Err(TableRefusal::NoRow);
        }
        self.rows[at] = row;
        Ok(())
    }
}
