//! The numbers under which kinds and states are written.
ghost use Rattle.std.specs.Prelude.{◌≡◌};
ghost use Rattle.std.specs.Option.{option_map};
ghost use Rattle.std.specs.Result.{result_ok};
ghost use Rattle.cases.specs.Numbers.{subject_kind, subject_number, original_number, original_of, state_number, state_of, closing_of};
ghost use Rattle.cases.specs.Views.{subject_view, state_view};

use crate::case::{OriginalKind, State, Subject};
use values::identifier::Identifier;
use values::kind::Kind;

/// A number that no kind of original has.
#[derive(Clone, Copy, Debug, PartialEq, Eq)]
pub struct UnknownOriginal;

impl Subject {
    /// The kind of the message that opens such a case: a request or a recall.
    pub fn kind(&self) -> Kind
        ensures { result ≡ subject_kind (subject_view self.now) }
    {
        match self {
            Subject::Request => Kind::Request,
            Subject::Recall(_) => Kind::Recall,
        }
    }

    /// The number of that kind: 13 or 56.
    pub fn number(&self) -> u8
        ensures { result ≡ subject_number (subject_view self.now) }
    {
        self.kind().number()
    }
}

impl TryFrom<u8> for OriginalKind {
    type Error = UnknownOriginal;

    ghost try_from_gives = { λ number r. result_ok r ≡ original_of number };

    fn try_from(number: u8) -> Result<OriginalKind, UnknownOriginal> {
        match number {
            8 => Ok(OriginalKind::CustomerTransfer),
            9 => Ok(OriginalKind::InstitutionTransfer),
            13 => Ok(OriginalKind::Request),
            _ => Err(UnknownOriginal),
        }
    }
}

impl OriginalKind {
    /// Its number: 8, 9 or 13.
    pub fn number(self) -> u8
        ensures { result ≡ original_number self }
    {
        self as u8
    }
}

impl State {
    /// Its number, from 1 to 5.
    pub fn number(&self) -> u8
        ensures { result ≡ state_number (state_view self.now) }
    {
        // A state that holds an identifier has no discriminant to cast, so the numbers stand here.
        match *self {
            State::Open => 1,
            State::Pending => 2,
            State::Agreed(_) => 3,
            State::Declined(_) => 4,
            State::Withdrawn(_) => 5,
        }
    }

    /// The identifier of the message that closed the case, from state 3 on.
    pub fn closing(&self) -> Option<Identifier>
        ensures { option_map (λ i. i.bytes) result ≡ closing_of (state_view self.now) }
    {
        match *self {
            State::Open | State::Pending => None,
            State::Agreed(identifier)
            | State::Declined(identifier)
            | State::Withdrawn(identifier) => Some(identifier),
        }
    }

    /// The state with this number and this closing identifier, which stands exactly from state 3 on.
    pub fn read(number: u8, closing: Option<Identifier>) -> Option<State>
        ensures { option_map state_view result ≡ state_of number (option_map (λ i. i.bytes) closing) }
    {
        // Both decide together; a conversion from a pair of them would be no plainer.
        match (number, closing) {
            (1, None) => Some(State::Open),
            (2, None) => Some(State::Pending),
            (3, Some(identifier)) => Some(State::Agreed(identifier)),
            (4, Some(identifier)) => Some(State::Declined(identifier)),
            (5, Some(identifier)) => Some(State::Withdrawn(identifier)),
            _ => None,
        }
    }
}
