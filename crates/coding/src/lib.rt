//! A case as a block: just the fields that the case holds, closed with the check.
#![tactic(auto)]

ghost use Rattle.std.specs.Prelude.{◌≡◌, [], ◌∷◌, MatchOption, ◌≢◌};
ghost use Rattle.std.specs.Option.{option_map};
ghost use Rattle.tags.specs.Tags.{number_of};
ghost use Rattle.block.specs.Fields.{fields_of};
ghost use Rattle.cases.specs.Cases.{CaseValue};
ghost use Rattle.cases.specs.Fitness.{Fit};
ghost use Rattle.cases.specs.Views.{name_view, subject_view, state_view, view};
ghost use Rattle.coding.specs.CaseFields.{field, opening_fields, original_fields, state_fields, transaction_fields, case_block};
ghost use Rattle.coding.specs.Putting.{Puts};
ghost use Rattle.coding.specs.Decoding.{name_in, original_in, subject_in, state_in, case_in};

use block::BLOCK;
use block::writer::BlockWriter;
use cases::case::{Case, CaseName, Original, OriginalKind, State, Subject};
use items::item;
use tags::listing::Tag;
use values::kind::Kind;

/// Puts a field, where it may stand.
fn put(writer: &mut BlockWriter<'_>, tag: Tag, value: &[u8])
    ensures { Puts writer.old (field (number_of tag) value.now ∷ []) writer.new }
{
    // What may not stand is refused and changes nothing; that all fields of a case may stand is shown of `case_block`.
    let _ = writer.put(tag.number(), value);
}

/// Puts what a case is opened with: its kind, its identifier and its parties.
fn put_opening(writer: &mut BlockWriter<'_>, case: &Case)
    ensures { Puts writer.old (opening_fields (view case.now)) writer.new }
{
    put(writer, Tag::Kind, &[case.subject.number()]);
    put(writer, Tag::Identifier, &case.name.identifier.bytes);
    put(writer, Tag::Assigner, &case.opener.bytes);
    put(writer, Tag::Assignee, &case.assignee.bytes);
}

/// Puts the original, which a recall has.
fn put_original(writer: &mut BlockWriter<'_>, subject: &Subject)
    ensures { Puts writer.old (original_fields (subject_view subject.now)) writer.new }
{
    if let Subject::Recall(original) = *subject {
        put(writer, Tag::OriginalKind, &[original.kind.number()]);
        put(writer, Tag::OriginalIdentifier, &original.identifier.bytes);
    }
}

/// Puts the state, and the closing identifier, which a closed case has.
fn put_state(writer: &mut BlockWriter<'_>, state: &State)
    ensures { Puts writer.old (state_fields (state_view state.now)) writer.new }
{
    put(writer, Tag::State, &[state.number()]);
    if let Some(closing) = state.closing() {
        put(writer, Tag::ClosingIdentifier, &closing.bytes);
    }
}

/// Puts what the transaction of the case says: its reference, its end-to-end identification and its amount.
fn put_transaction(writer: &mut BlockWriter<'_>, case: &Case)
    ensures { Puts writer.old (transaction_fields (view case.now)) writer.new }
{
    put(writer, Tag::Uetr, &case.name.uetr.bytes);
    put(writer, Tag::EndToEnd, case.end_to_end.bytes());
    put(writer, Tag::Amount, &case.amount.bytes());
}

/// The block that a case is written as.
pub fn case_block(case: &Case) -> [u8; BLOCK]
    ensures { result ≡ case_block (view case.now) }
{
    let mut block = [0; BLOCK];
    let mut writer = BlockWriter::new(&mut block);
    put_opening(&mut writer, case);
    put_original(&mut writer, &case.subject);
    put_state(&mut writer, &case.state);
    put_transaction(&mut writer, case);
    writer.close();
    block
}

/// The name of the case that a block holds.
fn read_name(block: &[u8]) -> Option<CaseName>
    ensures { option_map name_view result ≡ name_in (fields_of block.now) }
{
    Some(CaseName {
        identifier: item(block, Tag::Identifier)?,
        uetr: item(block, Tag::Uetr)?,
    })
}

/// The original of a recall.
fn read_original(block: &[u8]) -> Option<Subject>
    ensures { option_map subject_view result ≡ original_in (fields_of block.now) }
{
    Some(Subject::Recall(Original {
        kind: OriginalKind::try_from(item::<u8>(block, Tag::OriginalKind)?).ok()?,
        identifier: item(block, Tag::OriginalIdentifier)?,
    }))
}

/// What the case is about.
fn read_subject(block: &[u8]) -> Option<Subject>
    ensures { option_map subject_view result ≡ subject_in (fields_of block.now) }
{
    match Kind::try_from(item::<u8>(block, Tag::Kind)?).ok()? {
        Kind::Request => Some(Subject::Request),
        Kind::Recall => read_original(block),
        Kind::Report | Kind::Reply => None,
    }
}

/// The state of the case.
fn read_state(block: &[u8]) -> Option<State>
    ensures { option_map state_view result ≡ state_in (fields_of block.now) }
{
    State::read(
        item(block, Tag::State)?,
        item(block, Tag::ClosingIdentifier),
    )
}

/// The case that a block holds, whatever else it holds.
pub fn read_case(block: &[u8]) -> Option<Case>
    ensures { option_map view result ≡ case_in (fields_of block.now) }
{
    Some(Case {
        name: read_name(block)?,
        subject: read_subject(block)?,
        end_to_end: item(block, Tag::EndToEnd)?,
        amount: item(block, Tag::Amount)?,
        opener: item(block, Tag::Assigner)?,
        assignee: item(block, Tag::Assignee)?,
        state: read_state(block)?,
    })
}

/// The case that a block is written as, if it is the block of a case.
pub fn exact_case(block: &[u8; BLOCK]) -> Option<Case>
    ensures { MatchOption result ((c : CaseValue) → Fit c → block.now ≢ case_block c) (λ case. block.now ≡ case_block (view case)) }
{
    let case = read_case(block)?;
    if case_block(&case) == *block {
        Some(case)
    } else {
        None
    }
}
