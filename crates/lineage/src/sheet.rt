// A sheet's records, and the values that are written for them. An index is a parent's, two bytes; past the end stand zeros, as in the
// definitions.
ghost use Rattle.std.specs.Prelude.{◌≡◌};
ghost use Rattle.standard.specs.Lineage.{parent1, parent2, derived_length, key_length};
ghost use Rattle.standard.specs.Lists.{record_at};
ghost use Rattle.standard.specs.Sizes.{sheet_size, value_size};

use arrays::part;
use standard::{SHEET_RECORD, SHEET_VALUE, pair};

pub type Record = [u8; SHEET_RECORD];

pub type Value = [u8; SHEET_VALUE];

pub(crate) fn record_at(sheet: &[u8], i: u16) -> Record
    ensures { result ≡ record_at sheet_size sheet.now i }
{
    part(sheet, SHEET_RECORD * usize::from(i))
}

pub(crate) fn value_at(values: &[u8], i: u16) -> Value
    ensures { result ≡ record_at value_size values.now i }
{
    part(values, SHEET_VALUE * usize::from(i))
}

// The indexes of a record's parents.
pub(crate) fn first_parent(p: Record) -> u16
    ensures { result ≡ parent1 p }
{
    pair(p[1], p[2])
}

pub(crate) fn second_parent(p: Record) -> u16
    ensures { result ≡ parent2 p }
{
    pair(p[3], p[4])
}

// The bytes that an operation 1 to 5 takes of the first parent, and gives. An operation stays its byte: the definitions also take one that no
// operation has, of a parent that is not filled.
pub(crate) fn derived_length(operation: u8) -> u8
    ensures { result ≡ derived_length operation }
{
    if operation <= 3 { 16 } else { 10 }
}

// The bytes of a record's key.
pub(crate) fn key_length(p: Record) -> u8
    ensures { result ≡ key_length p }
{
    if p[0] == 0 {
        p[5]
    } else {
        derived_length(p[0])
    }
}
