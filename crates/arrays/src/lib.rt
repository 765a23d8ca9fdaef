// Strings of any length: typed arrays of them and of their parts, two joined, the ⊕ of two, big-endian numbers.
#![tactic(auto)]

mod joins;
mod parts;
mod words;
mod xors;

ghost use Rattle.std.specs.Prelude.{◌≡◌};
ghost use Rattle.standard.specs.Bytes.{same as same_of};

pub use joins::join;
pub use parts::{both_exactly, byte_at, copy, exactly, part};
pub use words::bytes3;
pub use xors::xor;

// Two strings are the same. No `==`: it ends at the first byte that differs, so that the bytes are not compared many at a time, and a sheet
// of given keys would take half as long again.
pub fn same(a: &[u8], b: &[u8]) -> bool
    ensures { result ≡ same_of a.now b.now }
{
    if a.len() != b.len() {
        return false;
    }
    let mut t = true;
    for i in 0..a.len() {
        t &= a[i] == b[i];
    }
    t
}
