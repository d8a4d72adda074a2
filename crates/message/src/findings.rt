//! What passing over the blocks of a message finds.
ghost use Rattle.std.specs.Prelude.{◌≡◌, ◌≤◌, [], length};
ghost use Rattle.std.specs.Option.{option_map};
ghost use Rattle.std.specs.Result.{result_err};
ghost use Rattle.message.specs.Findings.{with_report, slots_of, gathered, nothing, judged_findings};
ghost use Rattle.message.specs.Messages.{first_fault, check_fault, wrong_check};

use crate::refusal::Refusal;
use crate::scan::{Found, scan};
use crate::shapes::{Role, Slot, shape};
use block::BLOCK;
use block::check::has_check;
use tags::faults::BlockFault;
use values::kind::Kind;

/// The first refusal by each of the checks 3 to 5, over all blocks.
#[derive(Clone, Copy, Debug, Default, PartialEq, Eq)]
pub(crate) struct Findings {
    layout: Option<Refusal>,
    tags: Option<Refusal>,
    values: Option<Refusal>,
}

impl Findings {
    /// Adds what was found in a block.
    fn add(&mut self, block: u8, found: Result<Found, BlockFault>)
        ensures { self.new ≡ with_report self.old block found }
    {
        match found {
            Err(fault) => {
                let place = fault.place();
                self.layout = self.layout.or(Some(Refusal::BrokenLayout { block, place }));
            }
            Ok(Found { tags, values }) => {
                self.tags = self
                    .tags
                    .or(tags.map(|tag| Refusal::MisplacedTag { block, tag }));
                self.values = self
                    .values
                    .or(values.map(|tag| Refusal::UnfitValue { block, tag }));
            }
        }
    }

    /// Makes the checks 3 to 5 in their order. Where the kind of the message is not known, tag 1 of the header is the first
    /// that is out of place.
    pub(crate) fn judge(self, kind: Option<Kind>) -> Result<(), Refusal>
        ensures { result_err result ≡ judged_findings kind self }
    {
        let tags = match kind {
            Some(_) => self.tags,
            None => Some(Refusal::MisplacedTag { block: 0, tag: 1 }),
        };
        self.layout.or(tags).or(self.values).map_or(Ok(()), Err)
    }
}

/// The slots of a block: none where the kind of the message is not known.
fn slots_of(kind: Option<Kind>, block: u8) -> &'static [Slot]
    ensures { result.now ≡ slots_of kind block }
{
    kind.map_or(&[], |kind| shape(kind, Role::of_block(block)))
}

/// Passes over the fields of each block once.
pub(crate) fn gather(kind: Option<Kind>, blocks: &[[u8; BLOCK]]) -> Findings
    requires { length blocks.now ≤ 17 }
    ensures { result ≡ gathered kind 0 blocks.now nothing }
{
    let mut findings = Findings::default();
    for (number, block) in (0..).zip(blocks) {
        findings.add(number, scan(block, slots_of(kind, number)));
    }
    findings
}

/// Makes check 2: each block has its check.
pub(crate) fn judge_checks(blocks: &[[u8; BLOCK]]) -> Result<(), Refusal>
    requires { length blocks.now ≤ 17 }
    ensures { result_err result ≡ option_map wrong_check (first_fault check_fault 0 blocks.now) }
{
    for (block, bytes) in (0..).zip(blocks) {
        if !has_check(bytes) {
            return Err(Refusal::WrongCheck { block });
        }
    }
    Ok(())
}
