//! One scan for every condition on the cases of a book.
ghost use Rattle.std.specs.Prelude.{◌≡◌, Bool};
ghost use Rattle.table.specs.Lists.{any};
ghost use Rattle.cases.specs.Cases.{CaseValue};
ghost use Rattle.cases.specs.Views.{view};

use crate::book::CaseBook;
use crate::iter::Cases;
use cases::case::Case;

/// A condition that a case meets or not. A closure would be no plainer: the promise of `any_case` is an equation in what the
/// condition names `met`, and asks nothing of how it is called. Who has a closure asks `Cases::of(book).any(..)`.
pub trait CaseCondition {
    ghost met: { Self → CaseValue → Bool };

    /// Whether the case meets it.
    fn is_met(&self, case: &Case) -> bool
        ensures { result ≡ met self.now (view case.now) };
}

/// Whether some case of the book meets the condition.
pub fn any_case<B: CaseBook, C: CaseCondition>(book: &B, condition: &C) -> bool
    requires { B.sound book.now }
    ensures { result ≡ any (C.met condition.now) (B.cases book.now) }
{
    Cases::of(book).any(|case| condition.is_met(&case))
}
