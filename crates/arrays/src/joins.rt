// Two strings, one after the other.
ghost use Rattle.std.specs.Prelude.{◌++◌, ◌≡◌, ◌+◌};
ghost use Rattle.standard.specs.Bytes.{part};

use crate::parts::copy;

// The first L bytes of both, filled up with zeros.
pub fn join<const M: usize, const N: usize, const L: usize>(a: [u8; M], b: [u8; N]) -> [u8; L]
    ensures value { result ≡ part 0 L (a.entry ++ b.entry) }
    ensures whole { M + N ≡ L → result ≡ part 0 M a.entry ++ part 0 N b.entry }
{
    let mut out = [0u8; L];
    let whole = &mut out[..];
    copy(&a, whole);
    if M < L {
        copy(&b, &mut whole[M..]);
    }
    out
}
