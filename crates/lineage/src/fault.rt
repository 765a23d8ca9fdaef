// The refusal of a sheet's record: 14, 15 or 16.
ghost use Rattle.std.specs.Prelude.{◌≡◌};
ghost use Rattle.standard.specs.Answers.{refused_by};
ghost use Rattle.standard.specs.Lineage.{given_filled, derived_filled, filled as filled_of, parent_tests, lineage_fault};
ghost use Rattle.standard.specs.Refusals.{first};

use crate::sheet::{Record, derived_length, first_parent, key_length, record_at, second_parent};
use arrays::same;
use standard::Refusal;

// Both parents zero, a length of 10 or 16, zero bytes after the key.
fn given_filled(p: Record) -> bool
    ensures { result ≡ given_filled p }
{
    let given = (p[5] == 16) | ((p[5] == 10) & same(&p[16..], &[0; 6]));
    same(&p[1..5], &[0; 4]) & given
}

// Length and value zero.
fn derived_filled(p: Record) -> bool
    ensures { result ≡ derived_filled p }
{
    let rest = same(&p[5..], &[0; 17]);
    p[0] <= 5 && rest
}

fn filled(p: Record) -> bool
    ensures { result ≡ filled_of p }
{
    if p[0] == 0 {
        given_filled(p)
    } else {
        derived_filled(p)
    }
}

// 15 and 16: both parents of record i stand before it, and then have the lengths that its operation takes.
fn check_parents(sheet: &[u8], p: Record, i: u16) -> Result<(), Refusal>
    ensures { refused_by result ≡ first (parent_tests sheet.now p i) }
{
    let a = first_parent(p);
    let b = second_parent(p);
    if a >= i || b >= i {
        return Err(Refusal::WrongParent);
    }
    let first = key_length(record_at(sheet, a));
    let second = key_length(record_at(sheet, b));
    if first != derived_length(p[0]) || second != 10 {
        return Err(Refusal::ParentLength);
    }
    Ok(())
}

#[tactic(auto, using(crate::proofs::SheetLaws::fault_filling, crate::proofs::SheetLaws::fault_given, crate::proofs::SheetLaws::fault_parents))]
pub(crate) fn check_record(sheet: &[u8], i: u16) -> Result<(), Refusal>
    ensures { refused_by result ≡ lineage_fault sheet.now i }
{
    let p = record_at(sheet, i);
    if !filled(p) {
        return Err(Refusal::WrongFilling);
    }
    if p[0] == 0 {
        return Ok(());
    }
    check_parents(sheet, p, i)
}
