// The value of a sheet's record: its key, left-aligned and zero-filled.
ghost use Rattle.std.specs.Prelude.{◌≡◌};
ghost use Rattle.standard.specs.Bytes.{part};
ghost use Rattle.standard.specs.Lineage.{derived};
ghost use Rattle.standard.specs.Sizes.{value_size};
ghost use Rattle.lineage.specs.SheetValues.{from_values};

use crate::sheet::{Value, first_parent, record_at, second_parent, value_at};
use arrays::part;
use keys::{core, reversed, ta71_of};
use mixing::tb4_of;

// TA11, TA21, TA41, TB4 or TA71 of the keys in two values. The operation stays its byte, as in `derived_length`.
fn derive(operation: u8, a: Value, b: Value) -> Value
    ensures { result ≡ part 0 value_size (derived operation a b) }
{
    let first = part(&a, 0);
    let second = part(&b, 0);
    match operation {
        1 | 3 => core(a, second),
        2 => core(a, reversed(second)),
        4 => part(&tb4_of(first, second), 0),
        _ => part(&ta71_of(first, second), 0),
    }
}

// The value of record i, where the values of the records before it are written.
#[tactic(auto, unfolding(crate::specs::SheetValues::from_values, standard::specs::Lineage::value_from))]
pub(crate) fn value_of(sheet: &[u8], values: &[u8], i: u16) -> Value
    ensures { result ≡ from_values sheet.now values.now i }
{
    let p = record_at(sheet, i);
    if p[0] == 0 {
        return part(&p, 6);
    }
    let a = value_at(values, first_parent(p));
    let b = value_at(values, second_parent(p));
    derive(p[0], a, b)
}
