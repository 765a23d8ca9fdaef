// The book calls: sealing, opening, and checking a plain book.
#![tactic(auto)]

mod convert;
mod direction;
mod walk;

ghost use Rattle.std.specs.Prelude.{◌≡◌};
ghost use Rattle.standard.specs.Answers.{book_answer, counted_answer};
ghost use Rattle.standard.specs.Books.{book_call, seal_book, open_book, check_plain};
ghost use Rattle.books.specs.BothDirections.{conversion_of};

use crate::convert::Book;
use crate::direction::Direction;
use arrays::exactly;
use lists::{lengths, lengths_and_output};
use standard::{CountedRefusal, CountedWritten, PLAIN_RECORD, RING, RefusedAt, RingBytes, Written};

// Two passes: the first looks for a refusal, the second writes.
fn book_call(
    direction: Direction,
    ring: &[u8],
    book: &[u8],
    out: &mut [u8],
) -> Result<CountedWritten, CountedRefusal>
    ensures { (counted_answer result, out.new) ≡ book_call (conversion_of ring.now direction) ring.now book.now out.old }
{
    let ring: RingBytes = exactly(ring)?;
    let output_size = direction.output_size();
    let records = lengths_and_output(direction.size(), output_size, book.len(), out.len())?;
    let book = Book {
        direction,
        ring: &ring,
        bytes: book,
        records,
    };
    let inspections = book.scan()?;
    let runs = inspections + book.write(out);
    Ok(CountedWritten {
        records,
        bytes: output_size as usize * records,
        runs,
    })
}

#[tactic(auto, unfolding(standard::specs::Books::seal_book))]
pub fn seal_book(
    ring: &[u8],
    plain: &[u8],
    out: &mut [u8],
) -> Result<CountedWritten, CountedRefusal>
    ensures { (counted_answer result, out.new) ≡ seal_book ring.now plain.now out.old }
{
    book_call(Direction::Sealing, ring, plain, out)
}

#[tactic(auto, unfolding(standard::specs::Books::open_book))]
pub fn open_book(
    ring: &[u8],
    sealed: &[u8],
    out: &mut [u8],
) -> Result<CountedWritten, CountedRefusal>
    ensures { (counted_answer result, out.new) ≡ open_book ring.now sealed.now out.old }
{
    book_call(Direction::Opening, ring, sealed, out)
}

// The checks of sealing without 11 and 12; they ask for no ring.
pub fn check_plain(plain: &[u8]) -> Result<Written, RefusedAt>
    ensures { book_answer result ≡ check_plain plain.now }
{
    let records = lengths(PLAIN_RECORD as u32, plain.len())?;
    let book = Book {
        direction: Direction::Sealing,
        ring: &[0; RING],
        bytes: plain,
        records,
    };
    match book.scan() {
        Ok(_) => Ok(Written { records, bytes: 0 }),
        Err(CountedRefusal { refusal, index, .. }) => Err(RefusedAt { refusal, index }),
    }
}
