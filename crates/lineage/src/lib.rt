// The lineage sheet: a tree of keys, each given or derived from two others.
#![tactic(auto)]

mod fault;
mod sheet;
mod value;
mod walk;

ghost use Rattle.std.specs.Prelude.{◌≡◌};
ghost use Rattle.standard.specs.Answers.{book_answer};
ghost use Rattle.standard.specs.Lineage.{lineage_call};

use crate::walk::{scan, write};
use lists::lengths_and_output;
use standard::{RefusedAt, SHEET_RECORD, SHEET_VALUE, Written};

#[tactic(auto, using(lists::proofs::ListReturnLaws::call_refused, lists::proofs::ListReturnLaws::call_done), unfolding(standard::specs::Lineage::lineage_call))]
pub fn lineage(sheet: &[u8], out: &mut [u8]) -> Result<Written, RefusedAt>
    ensures { (book_answer result, out.new) ≡ lineage_call sheet.now out.old }
{
    let n = lengths_and_output(
        SHEET_RECORD as u32,
        SHEET_VALUE as u32,
        sheet.len(),
        out.len(),
    )?;
    scan(sheet, n as u16)?;
    write(sheet, n as u16, out);
    Ok(Written {
        records: n,
        bytes: SHEET_VALUE * n,
    })
}
