//! The names of the fields, as scripts write them and as the program prints them.
use std::fmt;
use tags::listing::Tag;

/// A field's name and what it means.
#[derive(Clone, Copy, Debug)]
pub(crate) struct Name {
    pub tag: Tag,
    pub text: &'static str,
    pub meaning: &'static str,
}

const NAMES: [Name; 20] = [
    Name {
        tag: Tag::Kind,
        text: "kind",
        meaning: "message type",
    },
    Name {
        tag: Tag::Identifier,
        text: "identifier",
        meaning: "message identification",
    },
    Name {
        tag: Tag::CreationDate,
        text: "creation-date",
        meaning: "creation date",
    },
    Name {
        tag: Tag::Assigner,
        text: "assigner",
        meaning: "member that sends the message",
    },
    Name {
        tag: Tag::Assignee,
        text: "assignee",
        meaning: "member that the message is for",
    },
    Name {
        tag: Tag::NumberOfTransactions,
        text: "number",
        meaning: "number of transactions",
    },
    Name {
        tag: Tag::OriginalKind,
        text: "original-kind",
        meaning: "type of the original message",
    },
    Name {
        tag: Tag::OriginalIdentifier,
        text: "original-identifier",
        meaning: "identification of the original message",
    },
    Name {
        tag: Tag::DebtorAgent,
        text: "debtor-agent",
        meaning: "agent of the payer",
    },
    Name {
        tag: Tag::Verdict,
        text: "verdict",
        meaning: "number of the hub's verdict",
    },
    Name {
        tag: Tag::ErrorCode,
        text: "code",
        meaning: "error code of the whole message",
    },
    Name {
        tag: Tag::State,
        text: "state",
        meaning: "state of a case",
    },
    Name {
        tag: Tag::ClosingIdentifier,
        text: "closing-identifier",
        meaning: "identification of the message that closed a case",
    },
    Name {
        tag: Tag::Uetr,
        text: "uetr",
        meaning: "unique end-to-end transaction reference",
    },
    Name {
        tag: Tag::EndToEnd,
        text: "end-to-end",
        meaning: "end-to-end identification",
    },
    Name {
        tag: Tag::Amount,
        text: "amount",
        meaning: "amount in kopecks",
    },
    Name {
        tag: Tag::Status,
        text: "status",
        meaning: "transaction status",
    },
    Name {
        tag: Tag::Reason,
        text: "reason",
        meaning: "status reason",
    },
    Name {
        tag: Tag::Text,
        text: "text",
        meaning: "additional information",
    },
    Name {
        tag: Tag::CreditorAgent,
        text: "creditor-agent",
        meaning: "agent of the payee",
    },
];

// Two functions, by two keys: one over a closure for the key is no plainer.

/// The field that is called so, if there is one.
pub(crate) fn named(text: &[u8]) -> Option<Name> {
    NAMES
        .iter()
        .find(|name| name.text.as_bytes() == text)
        .copied()
}

/// The name of the field with this tag, if there is one.
pub(crate) fn name_of(tag: u8) -> Option<Name> {
    NAMES.iter().find(|name| name.tag.number() == tag).copied()
}

/// The names of all fields, as a message lists them.
#[derive(Clone, Copy)]
pub(crate) struct FieldNames;

impl fmt::Display for FieldNames {
    fn fmt<W: fmt::Write>(&self, f: &mut fmt::Formatter<W>) -> fmt::Result {
        let [first, between @ .., last] = NAMES.as_slice() else {
            return Ok(());
        };
        f.write_str(first.text)?;
        for name in between {
            write!(f, ", {}", name.text)?;
        }
        write!(f, " or {}", last.text)
    }
}
