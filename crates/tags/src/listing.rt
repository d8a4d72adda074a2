//! The listed tags: which fields a block may hold, how long each value may be and what form it has.
ghost use Rattle.std.specs.Prelude.{◌≡◌, IfSome};
ghost use Rattle.tags.specs.Tags.{number_of, rule_of, admits};

/// A listed tag, with its number in a block.
#[derive(Clone, Copy, Debug, PartialEq, Eq)]
pub enum Tag {
    Kind = 1,
    Identifier = 2,
    CreationDate = 3,
    Assigner = 4,
    Assignee = 5,
    NumberOfTransactions = 6,
    OriginalKind = 7,
    OriginalIdentifier = 8,
    DebtorAgent = 9,
    Verdict = 10,
    ErrorCode = 11,
    State = 12,
    ClosingIdentifier = 13,
    Uetr = 16,
    EndToEnd = 17,
    Amount = 18,
    Status = 19,
    Reason = 20,
    Text = 21,
    CreditorAgent = 22,
}

/// What the bytes of a value are.
#[derive(Clone, Copy)]
pub enum Form {
    /// A reference, compared as a whole.
    Identifier,
    /// ASCII digits and capital letters, always as many.
    Code,
    /// Printable ASCII, of a length that varies.
    Text,
    /// A number, its high byte first.
    Number,
}

/// What is listed of a tag: the lengths in bytes and the form of its values.
#[derive(Clone, Copy)]
pub struct Rule {
    pub tag: Tag,
    pub least: u8,
    pub most: u8,
    pub form: Form,
}

/// The rules, each at its tag's number.
// The rows are written out: a constant can't call a function that makes a row.
const RULES: [Option<Rule>; 23] = [
    None,
    Some(Rule {
        tag: Tag::Kind,
        least: 1,
        most: 1,
        form: Form::Number,
    }),
    Some(Rule {
        tag: Tag::Identifier,
        least: 20,
        most: 20,
        form: Form::Identifier,
    }),
    Some(Rule {
        tag: Tag::CreationDate,
        least: 8,
        most: 8,
        form: Form::Code,
    }),
    Some(Rule {
        tag: Tag::Assigner,
        least: 6,
        most: 6,
        form: Form::Code,
    }),
    Some(Rule {
        tag: Tag::Assignee,
        least: 6,
        most: 6,
        form: Form::Code,
    }),
    Some(Rule {
        tag: Tag::NumberOfTransactions,
        least: 2,
        most: 2,
        form: Form::Number,
    }),
    Some(Rule {
        tag: Tag::OriginalKind,
        least: 1,
        most: 1,
        form: Form::Number,
    }),
    Some(Rule {
        tag: Tag::OriginalIdentifier,
        least: 20,
        most: 20,
        form: Form::Identifier,
    }),
    Some(Rule {
        tag: Tag::DebtorAgent,
        least: 6,
        most: 6,
        form: Form::Code,
    }),
    Some(Rule {
        tag: Tag::Verdict,
        least: 1,
        most: 1,
        form: Form::Number,
    }),
    Some(Rule {
        tag: Tag::ErrorCode,
        least: 4,
        most: 4,
        form: Form::Code,
    }),
    Some(Rule {
        tag: Tag::State,
        least: 1,
        most: 1,
        form: Form::Number,
    }),
    Some(Rule {
        tag: Tag::ClosingIdentifier,
        least: 20,
        most: 20,
        form: Form::Identifier,
    }),
    None,
    None,
    Some(Rule {
        tag: Tag::Uetr,
        least: 16,
        most: 16,
        form: Form::Identifier,
    }),
    Some(Rule {
        tag: Tag::EndToEnd,
        least: 1,
        most: 35,
        form: Form::Text,
    }),
    Some(Rule {
        tag: Tag::Amount,
        least: 8,
        most: 8,
        form: Form::Number,
    }),
    Some(Rule {
        tag: Tag::Status,
        least: 4,
        most: 4,
        form: Form::Code,
    }),
    Some(Rule {
        tag: Tag::Reason,
        least: 4,
        most: 4,
        form: Form::Code,
    }),
    Some(Rule {
        tag: Tag::Text,
        least: 1,
        most: 105,
        form: Form::Text,
    }),
    Some(Rule {
        tag: Tag::CreditorAgent,
        least: 6,
        most: 6,
        form: Form::Code,
    }),
];

/// What is listed of the tag with this number, if it is listed.
pub fn rule_of(number: u8) -> Option<Rule>
    ensures value { result ≡ rule_of number }
    ensures numbered { IfSome result (λ rule. number_of rule.tag ≡ number) }
{
    *RULES.get(usize::from(number))?
}

impl Tag {
    /// The tag's number in a block.
    pub fn number(self) -> u8
        ensures { result ≡ number_of self }
    {
        self as u8
    }
}

impl Rule {
    /// Whether a value may have this length.
    pub fn admits(&self, len: usize) -> bool
        ensures { result ≡ admits self.now len }
    {
        (usize::from(self.least)..=usize::from(self.most)).contains(&len)
    }
}
