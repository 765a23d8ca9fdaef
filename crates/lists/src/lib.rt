// Lists of records: the tests of their lengths, over the bytes of a record.
#![tactic(auto)]

ghost use Rattle.std.specs.Prelude.{◌≡◌, ◌*◌, ◌/◌, ◌≤◌, IfOk};
ghost use Rattle.standard.specs.Answers.{refused_by};
ghost use Rattle.standard.specs.Lists.{length_tests, list_tests};
ghost use Rattle.standard.specs.Refusals.{first};

use standard::{MOST_RECORDS, Refusal};

// How many records of `size` bytes the list is; or 1 and 2: its bytes are more than 1,024 records, or not whole ones.
pub fn lengths(size: u32, list: usize) -> Result<usize, Refusal>
    ensures tests { refused_by result ≡ first (length_tests size list) }
    ensures records { IfOk result (λ n. (n ≡ list / size) × (size * n ≡ list) × (n ≤ MOST_RECORDS)) }
{
    let size = size as usize;
    if list > size * MOST_RECORDS {
        return Err(Refusal::BookTooLong);
    }
    let records = list.checked_div(size).unwrap_or(0);
    if size * records != list {
        return Err(Refusal::BookNotWhole);
    }
    Ok(records)
}

// The same with 12: the output has fewer than `output_size` bytes for each record.
pub fn lengths_and_output(
    size: u32,
    output_size: u32,
    list: usize,
    out: usize,
) -> Result<usize, Refusal>
    ensures tests { refused_by result ≡ first (list_tests size output_size list out) }
    ensures records { IfOk result (λ n. (n ≡ list / size) × (size * n ≡ list) × (n ≤ MOST_RECORDS) × (output_size * n ≤ out)) }
{
    let records = lengths(size, list)?;
    if out < output_size as usize * records {
        return Err(Refusal::OutputShort);
    }
    Ok(records)
}
