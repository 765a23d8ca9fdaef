// TB1 to TB7, the mixing algorithms of TAA1 (000, clause 5).
#![tactic(auto)]

mod fields;

ghost use Rattle.std.specs.Prelude.{[], ◌∷◌, ◌≡◌};
ghost use Rattle.standard.specs.Answers.{bytes10, bytes16, refused_by};
ghost use Rattle.standard.specs.Expansions.{grouped};
ghost use Rattle.standard.specs.Mixing.{tb2 as tb2_of, tb4 as tb4_of, tb7 as tb7_of, tb1_call, tb2_call, tb3_call, tb4_call, tb5_call, tb6_call, tb7_call};
ghost use Rattle.standard.specs.Refusals.{valid_width, fits, wrong_width, value_wide, first};

use crate::fields::{fits_in, tb1_of, tb5_of, tb6_of};
use arrays::{both_exactly, exactly, join, part, xor};
pub use fields::valid_width;
use standard::Refusal;

// TB2 on a typed array.
fn tb2_of(input: [u8; 16]) -> [u8; 16]
    ensures { result ≡ tb2_of input }
{
    input
}

// TB4 on typed arrays.
pub fn tb4_of(a: [u8; 10], b: [u8; 10]) -> [u8; 10]
    ensures { result ≡ tb4_of a b }
{
    xor(a, b)
}

// The first two groups of three bytes, and after each its ⊕.
fn two_groups(b: [u8; 12]) -> [u8; 8]
    ensures { result ≡ grouped (3 ∷ 3 ∷ []) 0 b }
{
    [
        b[0],
        b[1],
        b[2],
        b[0] ^ b[1] ^ b[2],
        b[3],
        b[4],
        b[5],
        b[3] ^ b[4] ^ b[5],
    ]
}

// TB7 on a typed array: after each three bytes, their ⊕.
pub fn tb7_of(b: [u8; 12]) -> [u8; 16]
    ensures { result ≡ tb7_of b }
{
    join(two_groups(b), two_groups(part(&b, 6)))
}

// The calls, over strings of any length and numbers of any size.

// 9 and 10: the width is one that TB1 takes, and the value has no more bits.
fn check_value(value: u64, width: u64) -> Result<(), Refusal>
    ensures { refused_by result ≡ first ((valid_width width, wrong_width) ∷ (fits width value, value_wide) ∷ []) }
{
    if !valid_width(width) {
        return Err(Refusal::WrongWidth);
    }
    if !fits_in(value, width) {
        return Err(Refusal::ValueWide);
    }
    Ok(())
}

#[tactic(auto, unfolding(standard::specs::Mixing::tb1_call))]
pub fn tb1(value: u64, width: u64) -> Result<[u8; 16], Refusal>
    ensures { bytes16 result ≡ tb1_call value width }
{
    check_value(value, width)?;
    Ok(tb1_of(value, width))
}

#[tactic(auto, unfolding(standard::specs::Mixing::tb2_call))]
pub fn tb2(input: &[u8]) -> Result<[u8; 16], Refusal>
    ensures { bytes16 result ≡ tb2_call input.now }
{
    Ok(tb2_of(exactly(input)?))
}

#[tactic(auto, unfolding(standard::specs::Mixing::tb3_call, standard::specs::Mixing::tb3))]
pub fn tb3(input: &[u8], value: u64, width: u64) -> Result<[u8; 16], Refusal>
    ensures { bytes16 result ≡ tb3_call input.now value width }
{
    let input = exactly(input)?;
    check_value(value, width)?;
    Ok(xor(input, tb1_of(value, width)))
}

#[tactic(auto, unfolding(standard::specs::Mixing::tb4_call))]
pub fn tb4(input1: &[u8], input2: &[u8]) -> Result<[u8; 10], Refusal>
    ensures { bytes10 result ≡ tb4_call input1.now input2.now }
{
    let (a, b) = both_exactly(input1, input2)?;
    Ok(tb4_of(a, b))
}

#[tactic(auto, unfolding(standard::specs::Mixing::tb5_call))]
pub fn tb5(
    cipher_key: &[u8],
    location_area: u64,
    carrier: u64,
    colour_code: u64,
) -> Result<[u8; 10], Refusal>
    ensures { bytes10 result ≡ tb5_call cipher_key.now location_area carrier colour_code }
{
    let cipher_key = exactly(cipher_key)?;
    let fit = fits_in(location_area, 14) & fits_in(carrier, 12) & fits_in(colour_code, 6);
    if !fit {
        return Err(Refusal::ValueWide);
    }
    Ok(tb5_of(cipher_key, location_area, carrier, colour_code))
}

#[tactic(auto, unfolding(standard::specs::Mixing::tb6_call))]
pub fn tb6(cipher_key: &[u8], carrier: u64, identity: u64) -> Result<[u8; 10], Refusal>
    ensures { bytes10 result ≡ tb6_call cipher_key.now carrier identity }
{
    let cipher_key = exactly(cipher_key)?;
    let fit = fits_in(carrier, 12) & fits_in(identity, 24);
    if !fit {
        return Err(Refusal::ValueWide);
    }
    Ok(tb6_of(cipher_key, carrier, identity))
}

#[tactic(auto, unfolding(standard::specs::Mixing::tb7_call))]
pub fn tb7(group_key: &[u8]) -> Result<[u8; 16], Refusal>
    ensures { bytes16 result ≡ tb7_call group_key.now }
{
    let group_key = exactly(group_key)?;
    Ok(tb7_of(group_key))
}
