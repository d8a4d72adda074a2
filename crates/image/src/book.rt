//! The book in an image.
ghost use Rattle.std.specs.Prelude.{◌≡◌, ◌/◌, true, false, List, [], map, length, MatchResult};
ghost use Rattle.cases.specs.Cases.{CaseValue};
ghost use Rattle.books.specs.declared.refusal.BookRefusal.TheVariants.{NoBook};
ghost use Rattle.coding.specs.CaseFields.{case_block};
ghost use Rattle.image.specs.Image.{fit_length, image, ImageOf};
ghost use Rattle.image.specs.Books.{cases_of, room_of, Sound, OneForm, image_keeps};

use crate::blocks::{find_in, write_at};
use crate::mounting::{count_cases, has_fit_length};
use block::BLOCK;
use books::book::CaseBook;
use books::refusal::BookRefusal;
use cases::case::{Case, CaseName, State};
use coding::read_case;

/// A book whose cases are the first `count` blocks of lent bytes; the blocks are its capacity.
#[derive(Drop)]
pub struct ImageBook<'a> {
    bytes: &'a mut [u8],
    // A count beside lent memory: a rule of the project sets this form for every book.
    count: usize,
}

impl<'a> ImageBook<'a> {
    /// An empty book over lent bytes, which have to be 1 to 4,096 whole blocks; what stands in them is given up.
    pub fn new(bytes: &'a mut [u8]) -> Result<ImageBook<'a>, BookRefusal>
        ensures { MatchResult result (λ b. Sound b × (cases_of b ≡ []) × (room_of b ≡ length bytes.old / 512) × (fit_length (length bytes.old) ≡ true)) (λ e. (e ≡ NoBook) × (fit_length (length bytes.old) ≡ false)) }
    {
        if !has_fit_length(bytes) {
            return Err(BookRefusal::NoBook);
        }
        bytes.fill(0);
        Ok(ImageBook { bytes, count: 0 })
    }

    /// The book whose image the bytes are. They are the image of no other cases.
    #[tactic(auto, using(crate::proofs::Images::one_list))]
    pub fn mount(bytes: &'a mut [u8]) -> Result<ImageBook<'a>, BookRefusal>
        ensures { MatchResult result (λ b. Sound b × (b.bytes.now ≡ bytes.old) × ((cs : List CaseValue) → ImageOf bytes.old cs → cs ≡ cases_of b)) (λ e. (e ≡ NoBook) × ((cs : List CaseValue) → ImageOf bytes.old cs → ⊥)) }
    {
        let count = count_cases(bytes).ok_or(BookRefusal::NoBook)?;
        Ok(ImageBook { bytes, count })
    }

    /// The bytes: the image of the cases. A book with the same cases and as many blocks has the same bytes.
    pub fn bytes(&self) -> &[u8]
        requires { Sound self.now }
        ensures image { result.now ≡ image (room_of self.now) (cases_of self.now) }
        ensures one { OneForm self.now }
    {
        &*self.bytes
    }

    /// The blocks of the cases.
    #[tactic(auto, using(crate::proofs::Images::length_cases_in, crate::proofs::Images::first_blocks, std::proofs::lemmas::Grind::common_steps))]
    fn blocks(&self) -> &[[u8; BLOCK]]
        requires { Sound self.now }
        ensures { result.now ≡ map case_block (cases_of self.now) }
    {
        &self.bytes.as_chunks::<BLOCK>().0[..self.count]
    }
}

impl<'a> CaseBook for ImageBook<'a> {
    ghost cases = { cases_of };

    ghost room = { room_of };

    ghost sound = { Sound };

    ghost keeps = { image_keeps };

    #[tactic(auto, using(crate::proofs::Images::length_cases_in))]
    fn count(&self) -> usize {
        self.count
    }

    fn capacity(&self) -> usize {
        self.bytes.len() / BLOCK
    }

    #[tactic(auto, using(crate::proofs::Images::case_at_place, crate::proofs::Images::length_cases_in, std::proofs::lemmas::Option::slice_get_past))]
    fn case_at(&self, at: usize) -> Option<Case> {
        read_case(self.blocks().get(at)?)
    }

    #[tactic(auto, using(crate::proofs::Images::place_in_blocks))]
    fn find(&self, name: &CaseName) -> Option<usize> {
        find_in(self.blocks(), name)
    }

    #[tactic(auto, using(table::proofs::Bridges::any_place, crate::proofs::Images::length_cases_in))]
    fn open(&mut self, case: Case) -> Result<(), BookRefusal> {
        if self.find(&case.name).is_some() {
            return Err(BookRefusal::Stands);
        }
        if self.count >= self.capacity() {
            return Err(BookRefusal::Full);
        }
        let opened = Case {
            state: State::Open,
            ..case
        };
        write_at(self.bytes, self.count, &opened);
        self.count += 1;
        Ok(())
    }

    #[tactic(auto, using(table::proofs::Bridges::alter_past, crate::proofs::Images::length_cases_in, crate::proofs::Images::whole_image))]
    fn change(&mut self, at: usize, state: State) -> Result<(), BookRefusal> {
        let case = self.case_at(at).ok_or(BookRefusal::NoPlace)?;
        let changed = Case { state, ..case };
        write_at(self.bytes, at, &changed);
        Ok(())
    }
}
