// The derivations on typed arrays.
ghost use Rattle.std.specs.Prelude.{[], ◌∷◌, ◌++◌, ◌≡◌, ◌+◌, ◌-◌};
ghost use Rattle.standard.specs.Bytes.{◌!◌, ◌⊕◌, table, part};
ghost use Rattle.standard.specs.Keys.{core as core_of, ta71 as ta71_of, int as int_of};

use arrays::{bytes3, join, part, xor};
use cores::{bl1, exp2};

// BL1 of the expanded seed.
pub fn core(key: [u8; 16], seed: [u8; 10]) -> [u8; 16]
    ensures { result ≡ core_of key seed }
{
    let o = bl1(key, exp2(seed));
    let output = o.output;
    output
}

// TA21's seed, its ten bytes from right to left.
pub fn reversed(seed: [u8; 10]) -> [u8; 10]
    ensures { result ≡ table 10 (λ i. seed ! (9 - i)) }
{
    let mut out = seed;
    out.reverse();
    out
}

// TA71's key input: A9 to A4, A3 ⊕ B9 to A0 ⊕ B6, B5 to B0, which is A and six zero bytes ⊕ six zero bytes and B.
fn key_input(a: [u8; 10], b: [u8; 10]) -> [u8; 16]
    ensures { result ≡ part 0 6 a ++ table 4 (λ i. a ! (6 + i) ⊕ b ! i) ++ part 4 6 b }
{
    xor(part(&a, 0), join([0; 6], b))
}

// TA71 on typed arrays. SHR3 leaves the three leftmost and the three rightmost bytes out.
#[tactic(auto, unfolding(standard::specs::Keys::ta71, standard::specs::Keys::ta71_key, standard::specs::Expansions::shr3))]
pub fn ta71_of(a: [u8; 10], b: [u8; 10]) -> [u8; 10]
    ensures { result ≡ ta71_of a b }
{
    part(&core(key_input(a, b), xor(a, b)), 3)
}

// Three copies of the network identity's three bytes, and a zero byte.
fn copies(x: [u8; 3]) -> [u8; 10]
    ensures { result ≡ part 0 3 x ++ part 0 3 x ++ part 0 3 x ++ (0 ∷ []) }
{
    [x[0], x[1], x[2], x[0], x[1], x[2], x[0], x[1], x[2], 0]
}

// TA101's INT.
#[tactic(auto, unfolding(standard::specs::Keys::int))]
pub(crate) fn int(gck0: [u8; 10], mni: u64) -> [u8; 10]
    ensures { result ≡ int_of gck0 mni }
{
    xor(gck0, copies(bytes3(mni)))
}
