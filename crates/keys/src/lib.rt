// Responses and derived keys: TA11, TA12, TA21, TA22, TA41, TA71, TA101, and the ring recipe (000, 5.6, 5.7, 5.13, 5.18).
#![tactic(auto)]

mod derivation;
mod masks;
mod recipe;
mod sitting;

ghost use Rattle.std.specs.Prelude.{◌≡◌};
ghost use Rattle.standard.specs.Answers.{authentication_answer, bytes10, bytes16, ring_made_answer};
ghost use Rattle.standard.specs.Keys.{ta11_call, ta21_call, ta41_call, ta12_call, ta22_call, ta71_call, ta101_call, ring_of, ring_call};

use crate::derivation::int;
use crate::recipe::make;
use arrays::{both_exactly, exactly};
pub use derivation::{core, reversed, ta71_of};
pub use masks::{Masks, choose};
pub use sitting::sitting_ring;
use standard::{Refusal, ResponseAndKey, RingAndResponses, RingInputs};

// The calls, over strings of any length and numbers of any size.
#[tactic(auto, unfolding(standard::specs::Keys::ta11_call, standard::specs::Expansions::exp2))]
pub fn ta11(root: &[u8], seed: &[u8]) -> Result<[u8; 16], Refusal>
    ensures { bytes16 result ≡ ta11_call root.now seed.now }
{
    Ok(core(exactly(root)?, exactly(seed)?))
}

#[tactic(auto, unfolding(standard::specs::Keys::ta21_call))]
pub fn ta21(root: &[u8], seed: &[u8]) -> Result<[u8; 16], Refusal>
    ensures { bytes16 result ≡ ta21_call root.now seed.now }
{
    let (root, seed) = both_exactly(root, seed)?;
    Ok(core(root, reversed(seed)))
}

// TA41 does what TA11 does, with the seed RSO.
#[tactic(auto, unfolding(standard::specs::Keys::ta11_call, standard::specs::Keys::ta41_call))]
pub fn ta41(root: &[u8], seed: &[u8]) -> Result<[u8; 16], Refusal>
    ensures { bytes16 result ≡ ta41_call root.now seed.now }
{
    ta11(root, seed)
}

#[tactic(auto, unfolding(standard::specs::Keys::ta12_call))]
pub fn ta12(
    session_key: &[u8],
    challenge: &[u8],
    response_mask: u16,
    key_mask: u16,
) -> Result<ResponseAndKey, Refusal>
    ensures { authentication_answer result ≡ ta12_call session_key.now challenge.now response_mask key_mask }
{
    let (session_key, challenge) = both_exactly(session_key, challenge)?;
    let masks = Masks::new(response_mask, key_mask)?;
    Ok(masks.split(core(session_key, challenge)))
}

// TA22 has a name of its own in 000 and does what TA12 does, under TA21's session key: its challenge is not reversed.
pub fn ta22(
    session_key: &[u8],
    challenge: &[u8],
    response_mask: u16,
    key_mask: u16,
) -> Result<ResponseAndKey, Refusal>
    ensures { authentication_answer result ≡ ta22_call session_key.now challenge.now response_mask key_mask }
{
    ta12(session_key, challenge, response_mask, key_mask)
}

#[tactic(auto, unfolding(standard::specs::Keys::ta71_call, standard::specs::Keys::ta71, standard::specs::Keys::ta71_key))]
pub fn ta71(key1: &[u8], key2: &[u8]) -> Result<[u8; 10], Refusal>
    ensures { bytes10 result ≡ ta71_call key1.now key2.now }
{
    let (a, b) = both_exactly(key1, key2)?;
    Ok(ta71_of(a, b))
}

#[tactic(auto, unfolding(standard::specs::Keys::ta101_call))]
pub fn ta101(ks: &[u8], gck0: &[u8], mni: u64) -> Result<[u8; 16], Refusal>
    ensures { bytes16 result ≡ ta101_call ks.now gck0.now mni }
{
    let (ks, gck0) = both_exactly(ks, gck0)?;
    if mni >= 16777216 {
        return Err(Refusal::ValueWide);
    }
    Ok(core(ks, int(gck0, mni)))
}

// The ring recipe on typed arrays.
#[tactic(auto, unfolding(standard::specs::Keys::ring_of))]
pub fn ring_of(x: RingInputs) -> Result<RingAndResponses, Refusal>
    ensures { ring_made_answer result ≡ ring_of x }
{
    if !(1..=3).contains(&x.sides) {
        return Err(Refusal::WrongSides);
    }
    let masks = Masks::new(x.response_mask, x.key_mask)?;
    Ok(make(x, masks))
}

// The sides come as C hands them in, any number.
#[tactic(auto, unfolding(standard::specs::Keys::ring_call))]
pub fn ring(
    root: &[u8],
    rs: &[u8],
    rso: &[u8],
    rand1: &[u8],
    rand2: &[u8],
    c: &[u8],
    group_key: &[u8],
    sides: u64,
    response_mask: u16,
    key_mask: u16,
) -> Result<RingAndResponses, Refusal>
    ensures { ring_made_answer result ≡ ring_call root.now rs.now rso.now rand1.now rand2.now c.now
        group_key.now sides response_mask key_mask }
{
    ring_of(RingInputs {
        root: exactly(root)?,
        rs: exactly(rs)?,
        rso: exactly(rso)?,
        rand1: exactly(rand1)?,
        rand2: exactly(rand2)?,
        c: exactly(c)?,
        group_key: exactly(group_key)?,
        sides,
        response_mask,
        key_mask,
    })
}
