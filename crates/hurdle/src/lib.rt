// HURDLE-II, the block cipher of TAA1 (000, clause 6). Strings have the leftmost byte first.
#![tactic(auto)]

mod key_schedule;
mod lanes;
mod round;
mod tables;

ghost use Rattle.std.specs.Prelude.{◌≡◌};
ghost use Rattle.standard.specs.Answers.{bytes8};
ghost use Rattle.standard.specs.Bytes.{◌!◌, table};
ghost use Rattle.hurdle.specs.Lanes.{lanes, lane, lent};
ghost use Rattle.hurdle.specs.RoundSteps.{crypt_call};
ghost use Rattle.standard.specs.Hurdle.{S as s_of, S⁻¹ as s_inverse_of, schedule as schedule_of, encrypt_with, decrypt_with};
ghost use Rattle.standard.specs.Hurdle.{encrypt as encrypt_of, encrypt_call, decrypt_call};

use crate::key_schedule::lay_out_round_keys;
use crate::lanes::crypt_x4;
use crate::round::crypt;
use crate::tables::{s_at, s_inverse_at};
use arrays::both_exactly;
pub use key_schedule::doubled;
pub use round::{Direction, Halves, block_of, round_under, split};
use standard::Refusal;
pub use tables::{A, D, S, SPREAD, s_table, spread_table};

// All sixteen round keys, the first one first.
pub fn schedule(key: [u8; 16]) -> [u8; 192]
    ensures { result ≡ schedule_of key }
{
    lay_out_round_keys(key)
}

// A block under round keys that were laid out before.
pub fn encrypt_with(keys: &[u8; 192], block: [u8; 8]) -> [u8; 8]
    ensures { result ≡ encrypt_with keys.now block }
{
    crypt(keys, block, Direction::Encrypting)
}

pub fn decrypt_with(keys: &[u8; 192], block: [u8; 8]) -> [u8; 8]
    ensures { result ≡ decrypt_with keys.now block }
{
    crypt(keys, block, Direction::Decrypting)
}

// Four blocks side by side, each under its own round keys. One set of keys may be lent to all four.
pub fn encrypt_with_x4(keys: [&[u8; 192]; 4], x: [[u8; 8]; 4]) -> [[u8; 8]; 4]
    ensures { result ≡ lanes (λ j. encrypt_with (lent keys.entry j) (lane x j)) }
{
    crypt_x4(keys, x, Direction::Encrypting)
}

pub fn decrypt_with_x4(keys: [&[u8; 192]; 4], x: [[u8; 8]; 4]) -> [[u8; 8]; 4]
    ensures { result ≡ lanes (λ j. decrypt_with (lent keys.entry j) (lane x j)) }
{
    crypt_x4(keys, x, Direction::Decrypting)
}

// A block under a key.
#[tactic(auto, unfolding(standard::specs::Hurdle::encrypt))]
pub fn encrypt_block(key: [u8; 16], block: [u8; 8]) -> [u8; 8]
    ensures { result ≡ encrypt_of key block }
{
    let keys = lay_out_round_keys(key);
    crypt(&keys, block, Direction::Encrypting)
}

// S at each of three bytes, as TA61's permutation takes it.
pub fn substitute(x: [u8; 3]) -> [u8; 3]
    ensures { result ≡ table 3 (λ i. s_of ! (x ! i)) }
{
    x.map(s_at)
}

pub fn substitute_back(x: [u8; 3]) -> [u8; 3]
    ensures { result ≡ table 3 (λ i. s_inverse_of ! (x ! i)) }
{
    x.map(s_inverse_at)
}

// A call in either direction, over strings of any length.
#[tactic(auto, unfolding(crate::specs::RoundSteps::crypt_call))]
fn crypted(key: &[u8], block: &[u8], direction: Direction) -> Result<[u8; 8], Refusal>
    ensures { bytes8 result ≡ crypt_call key.now block.now direction }
{
    let (key, block) = both_exactly(key, block)?;
    let keys = lay_out_round_keys(key);
    Ok(crypt(&keys, block, direction))
}

#[tactic(auto, unfolding(crate::specs::RoundSteps::crypt_call, standard::specs::Hurdle::encrypt_call, standard::specs::Hurdle::encrypt))]
pub fn encrypt(key: &[u8], block: &[u8]) -> Result<[u8; 8], Refusal>
    ensures { bytes8 result ≡ encrypt_call key.now block.now }
{
    crypted(key, block, Direction::Encrypting)
}

#[tactic(auto, unfolding(crate::specs::RoundSteps::crypt_call, standard::specs::Hurdle::decrypt_call, standard::specs::Hurdle::decrypt))]
pub fn decrypt(key: &[u8], block: &[u8]) -> Result<[u8; 8], Refusal>
    ensures { bytes8 result ≡ decrypt_call key.now block.now }
{
    crypted(key, block, Direction::Decrypting)
}
