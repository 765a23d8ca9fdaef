// The two passes over a sheet: the first looks for a refusal, the second writes the values.
ghost use Rattle.std.specs.Prelude.{◌++◌, ◌≡◌, ◌*◌, ◌≤◌, OnOk, IfErr, length, drop};
ghost use Rattle.lists.specs.Walks.{Clean, FirstFault};
ghost use Rattle.standard.specs.Lineage.{lineage_fault, value_of};
ghost use Rattle.standard.specs.Lists.{joined};
ghost use Rattle.standard.specs.Sizes.{value_size};

use crate::fault::check_record;
use crate::value::value_of;
use standard::{RefusedAt, SHEET_VALUE};

pub(crate) fn scan(sheet: &[u8], n: u16) -> Result<(), RefusedAt>
    ensures clean { OnOk result (Clean (lineage_fault sheet.now) n) }
    ensures first { IfErr result (λ at. FirstFault n (lineage_fault sheet.now) at.refusal at.index) }
{
    for i in 0..n {
        let index = usize::from(i);
        check_record(sheet, i).map_err(|refusal| RefusedAt { refusal, index })?;
    }
    Ok(())
}

// The values, each into its own part of the output; a parent's is read where it was written.
pub(crate) fn write(sheet: &[u8], n: u16, out: &mut [u8])
    requires room { value_size * n ≤ length out.old }
    requires clean { Clean (lineage_fault sheet.now) n }
    ensures { out.new ≡ joined n (value_of sheet.now) ++ drop (value_size * n) out.old }
{
    for i in 0..n {
        let value = value_of(sheet, &out[..], i);
        let b = SHEET_VALUE * usize::from(i);
        out[b..b + SHEET_VALUE].copy_from_slice(&value);
    }
}
