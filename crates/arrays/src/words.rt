// Numbers, big-endian. Two bytes make a number by `standard::pair`, four and eight by `from_be_bytes`.
ghost use Rattle.std.specs.Prelude.{◌≡◌};
ghost use Rattle.standard.specs.Bytes.{bytes_of};

use crate::parts::part;

// A number's three lowest bytes. No type of the language has three.
pub fn bytes3(n: u64) -> [u8; 3]
    ensures { result ≡ bytes_of 3 n }
{
    part(&n.to_be_bytes(), 5)
}
