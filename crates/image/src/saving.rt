//! The image of any book.
ghost use Rattle.std.specs.Prelude.{◌≡◌, length, is_ok, if◌then◌else◌};
ghost use Rattle.image.specs.Image.{image};
ghost use Rattle.image.specs.Books.{save_answer};

use crate::blocks::write_at;
use block::BLOCK;
use books::book::CaseBook;
use books::iter::Cases;
use books::refusal::BookRefusal;

/// Writes the image of a book into lent bytes, which have to be as many blocks as the book has room for.
pub fn save<B: CaseBook>(book: &B, bytes: &mut [u8]) -> Result<(), BookRefusal>
    requires { B.sound book.now }
    ensures answer { result ≡ save_answer (B.room book.now) (length bytes.old) }
    ensures bytes { bytes.new ≡ (if is_ok result then image (B.room book.now) (B.cases book.now) else bytes.old) }
{
    if bytes.len() != BLOCK * book.capacity() {
        return Err(BookRefusal::NoBook);
    }
    bytes.fill(0);
    for (at, case) in Cases::of(book).enumerate() {
        write_at(bytes, at, &case);
    }
    Ok(())
}
