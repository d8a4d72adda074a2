//! What an answer makes of a case.
ghost use Rattle.std.specs.Prelude.{◌≡◌};
ghost use Rattle.std.specs.Option.{option_map};
ghost use Rattle.cases.specs.Answers.{after, after_withdrawal, is_closed};
ghost use Rattle.cases.specs.Views.{state_view};

use crate::case::{Case, State};
use values::identifier::Identifier;

/// The status that an answer gives, by its ISO code.
#[derive(Clone, Copy, Debug, PartialEq, Eq)]
pub enum Status {
    /// ACCP: the request is accepted.
    Accepted,
    /// RJCT: the request is rejected.
    Rejected,
    /// PDNG: the request is pending.
    Pending,
    /// ACCR: the recall is accepted.
    AcceptedCancellation,
    /// RJCR: the recall is rejected.
    RejectedCancellation,
    /// PDCR: the recall is pending.
    PendingCancellation,
}

impl State {
    /// Whether no answer can change it any more.
    pub fn is_closed(&self) -> bool
        ensures { result ≡ is_closed (state_view self.now) }
    {
        match *self {
            State::Open | State::Pending => false,
            State::Agreed(_) | State::Declined(_) | State::Withdrawn(_) => true,
        }
    }
}

impl Case {
    /// The state that an answer with this status makes of the case; `None` where the case is closed. `closing` is the
    /// identifier of the answering message.
    pub fn after(&self, status: Status, closing: Identifier) -> Option<State>
        ensures { option_map state_view result ≡ after (state_view self.now.state) status closing.bytes }
    {
        match (self.state, status) {
            (State::Open | State::Pending, status) => match status {
                Status::Pending | Status::PendingCancellation => Some(State::Pending),
                Status::Accepted | Status::AcceptedCancellation => Some(State::Agreed(closing)),
                Status::Rejected | Status::RejectedCancellation => Some(State::Declined(closing)),
            },
            _ => None,
        }
    }

    /// The state that consent to its recall makes of the case; `None` where the case is closed. `closing` is the identifier
    /// of the message that consents.
    pub fn after_withdrawal(&self, closing: Identifier) -> Option<State>
        ensures { option_map state_view result ≡ after_withdrawal (state_view self.now.state) closing.bytes }
    {
        match self.state {
            State::Open | State::Pending => Some(State::Withdrawn(closing)),
            _ => None,
        }
    }
}
