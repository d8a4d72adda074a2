//! A case and its parts.
ghost use Rattle.std.specs.Prelude.{◌≡◌};
ghost use Rattle.cases.specs.Cases.{same_name};
ghost use Rattle.cases.specs.Views.{name_view, view};
ghost use Rattle.cases.specs.Vacant.{vacant};

use octets::readable::Readable;
use table::Row;
use values::amount::Amount;
use values::identifier::Identifier;
use values::member_code::MemberCode;
use values::text::EndToEnd;
use values::uetr::Uetr;

/// The name of a case: the identifier of the message that opened it, and the reference of its transaction.
#[derive(Clone, Copy, PartialEq, Eq)]
pub struct CaseName {
    pub identifier: Identifier,
    pub uetr: Uetr,
}

/// What a recall may be of, by its number.
#[derive(Clone, Copy, Debug, PartialEq, Eq)]
pub enum OriginalKind {
    /// A customer's payment (pacs.008).
    CustomerTransfer = 8,
    /// A payment of an institution's own (pacs.009).
    InstitutionTransfer = 9,
    /// A request to pay (pain.013).
    Request = 13,
}

/// The original of a recall: its kind and its identifier.
#[derive(Clone, Copy, PartialEq, Eq)]
pub struct Original {
    pub kind: OriginalKind,
    pub identifier: Identifier,
}

/// What a case is about.
#[derive(Clone, Copy, PartialEq, Eq)]
pub enum Subject {
    /// A request to pay.
    Request,
    /// The recall of an original.
    Recall(Original),
}

/// How far a case has come. A closed case holds the identifier of the message that closed it.
#[derive(Clone, Copy, PartialEq, Eq)]
pub enum State {
    Open,
    Pending,
    Agreed(Identifier),
    Declined(Identifier),
    Withdrawn(Identifier),
}

/// A case.
#[derive(Clone, Copy, PartialEq, Eq)]
pub struct Case {
    pub name: CaseName,
    pub subject: Subject,
    pub end_to_end: EndToEnd,
    pub amount: Amount,
    pub opener: MemberCode,
    pub assignee: MemberCode,
    pub state: State,
}

impl CaseName {
    /// Whether it is the same name: the same identifier and the same reference.
    pub fn is(&self, other: &CaseName) -> bool
        ensures { result ≡ same_name (name_view self.now) (name_view other.now) }
    {
        self == other
    }
}

impl Row for Case {
    type Name = CaseName;

    ghost called = { λ c n. same_name (name_view c.name) (name_view n) };

    fn is_called(&self, name: &CaseName) -> bool {
        self.name.is(name)
    }
}

impl Case {
    /// A case for rows that stand empty: what stands in them is never shown.
    pub fn vacant() -> Case
        ensures { view result ≡ vacant }
    {
        let code = MemberCode::read(b"000000").unwrap();
        Case {
            name: CaseName {
                identifier: Identifier::read(b"00000020000101000000").unwrap(),
                uetr: Uetr::read(&[1; 16]).unwrap(),
            },
            subject: Subject::Request,
            end_to_end: EndToEnd::read(b"-").unwrap(),
            amount: Amount::new(1).unwrap(),
            opener: code,
            assignee: code,
            state: State::Open,
        }
    }
}
