// The key schedule. Rotations and ⊕ with D are linear, so a round key is the key, rotated, ⊕ the zero key's round key: no round key
// waits for the one before.
ghost use Rattle.std.specs.Prelude.{◌≡◌, ◌%◌};
ghost use Rattle.standard.specs.Bytes.{◌!◌, table};
ghost use Rattle.standard.specs.Hurdle.{schedule as schedule_of};

use crate::tables::{MASKS, ROTATIONS};
use arrays::join;

// The key and the key again, so that a rotated key is a part of it.
pub fn doubled(key: [u8; 16]) -> [u8; 32]
    ensures { result ≡ table 32 (λ i. key ! (i % 16)) }
{
    join(key, key)
}

// All sixteen round keys, each bytes 11..0 of its Q.
pub(crate) fn lay_out_round_keys(key: [u8; 16]) -> [u8; 192]
    ensures { result ≡ schedule_of key }
{
    let twice = doubled(key);
    let mut keys = [0u8; 192];
    for i in 0..16 {
        let from = ROTATIONS[i] + 4;
        for j in 0..12 {
            keys[i * 12 + j] = twice[from + j] ^ MASKS[i * 12 + j];
        }
    }
    keys
}
