// Books filed by column: byte 0 of each record, in the records' order, then byte 1 of each, up to the last byte; and back.
#![tactic(auto)]

ghost use Rattle.std.specs.Prelude.{◌++◌, ◌≡◌, ◌*◌, ◌<◌, ◌≤◌, length, drop};
ghost use Rattle.columns.specs.Ways.{filed};
ghost use Rattle.standard.specs.Answers.{book_answer};
ghost use Rattle.standard.specs.Columns.{column as column_of, transposed, to_columns, from_columns, columns_call};
ghost use Rattle.standard.specs.Sizes.{plain_size, sealed_size};

use lists::lengths_and_output;
use standard::{PLAIN_RECORD, RefusedAt, SEALED_RECORD, Written};

// Rows of `width` bytes, one after the other.
#[derive(Clone, Copy)]
struct Rows<'a> {
    bytes: &'a [u8],
    count: usize,
    width: usize,
    ghost whole: { count * width ≤ length bytes.now },
}

impl Rows<'_> {
    // Byte j of each row.
    #[tactic(auto, using(standard::proofs::FillLaws::fill_next))]
    fn column(&self, j: usize, out: &mut [u8])
        requires within { j < self.now.width }
        requires room { length out.old ≡ self.now.count }
        ensures { out.new ≡ column_of self.now.count self.now.width self.now.bytes.now j }
    {
        for (i, to) in out.iter_mut().enumerate() {
            *to = self.bytes[self.width * i + j];
        }
    }

    // The columns, one after the other.
    #[tactic(auto, using(crate::proofs::FileLaws::filed_more), unfolding(standard::specs::Columns::transposed))]
    fn transpose(&self, out: &mut [u8])
        requires { self.now.count * self.now.width ≤ length out.old }
        ensures { out.new ≡ transposed self.now.count self.now.width self.now.bytes.now ++ drop (self.now.count * self.now.width) out.old }
    {
        let n = self.count;
        for j in 0..self.width {
            self.column(j, &mut out[n * j..n * j + n]);
        }
    }
}

// Into columns, or back from them.
#[derive(Clone, Copy)]
enum Way {
    ToColumns,
    FromColumns,
}

// The call over the record's size. Columns are rows, too, as many as a record has bytes.
#[tactic(auto, using(lists::proofs::ListReturnLaws::call_refused, lists::proofs::ListReturnLaws::call_done), unfolding(standard::specs::Columns::columns_call))]
fn rearrange(book: &[u8], size: u32, way: Way, out: &mut [u8]) -> Result<Written, RefusedAt>
    ensures { (book_answer result, out.new) ≡ columns_call size (filed way) book.now out.old }
{
    let n = lengths_and_output(size, size, book.len(), out.len())?;
    let w = size as usize;
    let (count, width) = match way {
        Way::ToColumns => (n, w),
        Way::FromColumns => (w, n),
    };
    let rows = Rows {
        bytes: book,
        count,
        width,
    };
    rows.transpose(out);
    Ok(Written {
        records: n,
        bytes: w * n,
    })
}

pub fn plain_to_columns(plain: &[u8], out: &mut [u8]) -> Result<Written, RefusedAt>
    ensures { (book_answer result, out.new) ≡ columns_call plain_size to_columns plain.now out.old }
{
    rearrange(plain, PLAIN_RECORD as u32, Way::ToColumns, out)
}

pub fn plain_from_columns(columns: &[u8], out: &mut [u8]) -> Result<Written, RefusedAt>
    ensures { (book_answer result, out.new) ≡ columns_call plain_size from_columns columns.now out.old }
{
    rearrange(columns, PLAIN_RECORD as u32, Way::FromColumns, out)
}

pub fn sealed_to_columns(sealed: &[u8], out: &mut [u8]) -> Result<Written, RefusedAt>
    ensures { (book_answer result, out.new) ≡ columns_call sealed_size to_columns sealed.now out.old }
{
    rearrange(sealed, SEALED_RECORD as u32, Way::ToColumns, out)
}

pub fn sealed_from_columns(columns: &[u8], out: &mut [u8]) -> Result<Written, RefusedAt>
    ensures { (book_answer result, out.new) ≡ columns_call sealed_size from_columns columns.now out.old }
{
    rearrange(columns, SEALED_RECORD as u32, Way::FromColumns, out)
}
