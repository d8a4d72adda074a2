//! Examples: those that are shown of the definitions stand in one table, the others are run as tests.
#![tactic(auto)]

ghost use Rattle.std.specs.Prelude.{◌≡◌, length};
ghost use Rattle.trials.specs.Examples.{examples, AllHold};

#[cfg(test)]
mod blocks;
#[cfg(test)]
mod book_trials;
#[cfg(test)]
mod making;
#[cfg(test)]
mod message_trials;
#[cfg(test)]
mod value_trials;

/// How many examples are shown of the definitions: every row of the table is right.
#[tactic(auto, unfolding(block::specs::Block::check, block::specs::Block::padded, dates::specs::Dates::day_before, dates::specs::Dates::month_length, dates::specs::Dates::real_date, dates::specs::Dates::read_date, values::specs::Identifiers::identifier, crate::specs::Examples::last_of_the_body))]
pub fn shown_examples() -> usize
    ensures all { AllHold examples }
    ensures count { result ≡ length examples }
{
    8
}
