// The two-block cores BL1 and BL2, and the expansions EXP2 and EXP4, on typed arrays.
#![tactic(auto)]

ghost use Rattle.std.specs.Prelude.{◌≡◌, [], ◌∷◌, ◌++◌};
ghost use Rattle.standard.specs.Bytes.{◌!◌, ◌⊕◌, ◌⊞◌, part, xors};
ghost use Rattle.standard.specs.Cores.{bl1_with, bl1 as bl1_of, bl2 as bl2_of};
ghost use Rattle.standard.specs.Expansions.{exp1, exp2 as exp2_of, exp4 as exp4_of, sum_at, xor_of};
ghost use Rattle.cores.specs.CoreOutputs.{bl2_with, counted};

use arrays::{join, part, xor};
use hurdle::{decrypt_with, encrypt_with, schedule};
use standard::TEXT_RUNS;

// EXP1, after each pair its ⊕, and a last byte.
pub fn exp1_with(x: [u8; 10], last: u8) -> [u8; 16]
    ensures { result ≡ exp1 x ++ (last ∷ []) }
{
    let [a, b, c, d, e, f, g, h, i, j] = x;
    let [ab, cd, ef, gh, ij] = [a ^ b, c ^ d, e ^ f, g ^ h, i ^ j];
    [a, b, ab, c, d, cd, e, f, ef, g, h, gh, i, j, ij, last]
}

// The byte sum of the ⊕ values of the five pairs.
fn sum_of_xors(x: [u8; 10]) -> u8
    ensures { result ≡ xor_of 0 2 x ⊞ xor_of 2 2 x ⊞ xor_of 4 2 x ⊞ xor_of 6 2 x ⊞ xor_of 8 2 x }
{
    let [a, b, c, d, e, f, g, h, i, j] = x;
    (a ^ b)
        .wrapping_add(c ^ d)
        .wrapping_add(e ^ f)
        .wrapping_add(g ^ h)
        .wrapping_add(i ^ j)
}

#[tactic(auto, unfolding(standard::specs::Expansions::exp2))]
pub fn exp2(x: [u8; 10]) -> [u8; 16]
    ensures { result ≡ exp2_of x }
{
    exp1_with(x, sum_of_xors(x))
}

// The byte sums of the five pairs.
fn pair_sums(x: [u8; 10]) -> [u8; 5]
    ensures { result ≡ sum_at x 0 ∷ sum_at x 2 ∷ sum_at x 4 ∷ sum_at x 6 ∷ sum_at x 8 ∷ [] }
{
    let [a, b, c, d, e, f, g, h, i, j] = x;
    [
        a.wrapping_add(b),
        c.wrapping_add(d),
        e.wrapping_add(f),
        g.wrapping_add(h),
        i.wrapping_add(j),
    ]
}

// Leftmost the ⊕ of the sums, and before each pair its sum.
#[tactic(auto, unfolding(standard::specs::Expansions::exp4))]
pub fn exp4(x: [u8; 10]) -> [u8; 16]
    ensures { result ≡ exp4_of x }
{
    let [a, b, c, d, e, f, g, h, i, j] = x;
    let [ab, cd, ef, gh, ij] = pair_sums(x);
    let all = ab ^ cd ^ ef ^ gh ^ ij;
    [all, ab, a, b, cd, c, d, ef, e, f, gh, g, h, ij, i, j]
}

// The two blocks of a core's input, each under the name that the four lanes share.
pub fn left(x: [u8; 16]) -> [u8; 8]
    ensures { result ≡ part 0 8 x }
{
    part(&x, 0)
}

pub fn right(x: [u8; 16]) -> [u8; 8]
    ensures { result ≡ part 8 8 x }
{
    part(&x, 8)
}

// The right block of x ⊕ the left output.
pub fn bl1_right_input(x: [u8; 16], l: [u8; 8]) -> [u8; 8]
    ensures { result ≡ xors 8 (part 8 8 x) l }
{
    xor(right(x), l)
}

// What a core gives, BL1 sixteen bytes and BL2 fifteen, and the block cipher runs that it took.
#[derive(Clone, Copy, Debug, PartialEq, Eq)]
pub struct CoreOutput<const N: usize> {
    pub output: [u8; N],
    pub runs: usize,
}

// BL1's output: what its two cipher runs gave, one after the other.
pub fn bl1_output(l: [u8; 8], r: [u8; 8]) -> CoreOutput<16>
    ensures { result ≡ counted (part 0 8 l ++ part 0 8 r) }
{
    CoreOutput {
        output: join(l, r),
        runs: TEXT_RUNS,
    }
}

// BL1 under round keys that were laid out before. BL1 and BL2 run through their blocks in other orders, so neither is an instance of the other.
#[tactic(auto, unfolding(standard::specs::Cores::bl1_with))]
pub fn bl1_with(keys: &[u8; 192], x: [u8; 16]) -> CoreOutput<16>
    ensures { result ≡ counted (bl1_with keys.now x) }
{
    let l = encrypt_with(keys, left(x));
    let r = encrypt_with(keys, bl1_right_input(x, l));
    bl1_output(l, r)
}

#[tactic(auto, unfolding(standard::specs::Cores::bl1))]
pub fn bl1(key: [u8; 16], x: [u8; 16]) -> CoreOutput<16>
    ensures { result ≡ counted (bl1_of key x) }
{
    let keys = schedule(key);
    bl1_with(&keys, x)
}

// The left block of y, its last byte ⊕ that of r.
pub fn bl2_left_input(y: [u8; 16], r: [u8; 8]) -> [u8; 8]
    ensures { result ≡ part 0 7 y ++ ((y ! 7 ⊕ r ! 7) ∷ []) }
{
    let mut w = left(y);
    w[7] ^= r[7];
    w
}

// BL2's output: what its two cipher runs gave, the left one whole, and the first seven bytes of the right one ⊕ those of y.
pub fn bl2_output(l: [u8; 8], r: [u8; 8], y: [u8; 16]) -> CoreOutput<15>
    ensures { result ≡ counted (part 0 8 l ++ xors 7 r (part 0 7 y)) }
{
    let right: [u8; 7] = xor(part(&r, 0), part(&y, 0));
    CoreOutput {
        output: join(l, right),
        runs: TEXT_RUNS,
    }
}

#[tactic(auto, unfolding(crate::specs::CoreOutputs::bl2_with))]
fn bl2_with(keys: &[u8; 192], y: [u8; 16]) -> CoreOutput<15>
    ensures { result ≡ counted (bl2_with keys.now y) }
{
    let r = decrypt_with(keys, right(y));
    let l = decrypt_with(keys, bl2_left_input(y, r));
    bl2_output(l, r, y)
}

#[tactic(auto, unfolding(crate::specs::CoreOutputs::bl2_with, standard::specs::Cores::bl2, standard::specs::Hurdle::decrypt))]
pub fn bl2(key: [u8; 16], y: [u8; 16]) -> CoreOutput<15>
    ensures { result ≡ counted (bl2_of key y) }
{
    let keys = schedule(key);
    bl2_with(&keys, y)
}
