//! Judging bytes: whether they are the image of a book, and of how many cases.
ghost use Rattle.std.specs.Prelude.{◌≡◌, List, length, MatchOption};
ghost use Rattle.cases.specs.Cases.{CaseValue};
ghost use Rattle.image.specs.Image.{fit_length, all_zero, ImageOf, cases_in};

use crate::blocks::find_in;
use block::BLOCK;
use books::book::MOST;
use coding::exact_case;

/// Whether bytes are whole blocks, 1 to 4,096 of them.
pub(crate) fn has_fit_length(bytes: &[u8]) -> bool
    ensures { result ≡ fit_length (length bytes.now) }
{
    bytes.len() % BLOCK == 0 && (1..=MOST).contains(&(bytes.len() / BLOCK))
}

/// Whether all bytes are zero.
fn is_blank(bytes: &[u8]) -> bool
    ensures { result ≡ all_zero bytes.now }
{
    bytes.iter().all(|byte| *byte == 0)
}

/// How many cases bytes are the image of, if they are an image.
#[tactic(auto, using(crate::proofs::Images::image_length))]
pub(crate) fn count_cases(bytes: &[u8]) -> Option<usize>
    ensures { MatchOption result ((cs : List CaseValue) → ImageOf bytes.now cs → ⊥) (λ n. ImageOf bytes.now (cases_in n bytes.now)) }
{
    if !has_fit_length(bytes) {
        return None;
    }
    let (blocks, _) = bytes.as_chunks::<BLOCK>();
    for (at, block) in blocks.iter().enumerate() {
        if is_blank(blocks[at..].as_flattened()) {
            return Some(at);
        }
        let case = exact_case(block)?;
        if find_in(&blocks[..at], &case.name).is_some() {
            return None;
        }
    }
    Some(blocks.len())
}
