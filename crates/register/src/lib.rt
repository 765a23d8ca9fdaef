// HURDLE-II with the key schedule in sixteen bytes (02, 7): one register beside the block, which starts as the key and steps from round to
// round until the key is back. The calls answer what those of `hurdle` do.
#![tactic(auto)]

ghost use Rattle.std.specs.Prelude.{◌≡◌, ◌<◌, ◌≤◌};
ghost use Rattle.hurdle.specs.RoundSteps.{place, round_over, spreads, crypt_call};
ghost use Rattle.register.specs.RegisterStates.{state_of, turn as turn_of, turns};
ghost use Rattle.standard.specs.Answers.{bytes8, bytes16};
ghost use Rattle.standard.specs.Bytes.{part};
ghost use Rattle.standard.specs.Hurdle.{S as s_of, crypt as crypt_of, encrypt_call, decrypt_call, rotl, round_key, schedule};
ghost use Rattle.standard.specs.Register.{step as step_of, step_back as step_back_of, turned as turned_of, register_call};

use arrays::{both_exactly, exactly, xor};
use hurdle::{
    A, D, Direction, Halves, block_of, doubled, round_under, s_table, split, spread_table,
};
use standard::Refusal;
use std::array;

// The rotations of the steps: a static is read in its place.
static ROTATIONS: [usize; 16] = A;

// Rotated left by n bytes: a part of the register written twice.
fn rotated(q: [u8; 16], n: usize) -> [u8; 16]
    requires { n ≤ 16 }
    ensures { result ≡ rotl n q }
{
    let twice = doubled(q);
    array::from_fn(|i| twice[i + n])
}

// The step after round i + 1. A type of its own for such an i would be longer than the three `i < 16` of this file.
#[tactic(auto, unfolding(standard::specs::Hurdle::D, standard::specs::Hurdle::a))]
fn step(q: [u8; 16], i: usize) -> [u8; 16]
    requires { i < 16 }
    ensures { result ≡ step_of i q }
{
    xor(rotated(q, ROTATIONS[i]), D)
}

// Undoes it.
#[tactic(auto, unfolding(standard::specs::Hurdle::D, standard::specs::Hurdle::a))]
fn step_back(q: [u8; 16], i: usize) -> [u8; 16]
    requires { i < 16 }
    ensures { result ≡ step_back_of i q }
{
    rotated(xor(q, D), 16 - ROTATIONS[i])
}

// A round under the register, over S.
fn round(h: Halves, q: &[u8; 16]) -> Halves
    ensures { result ≡ round_over s_of spreads (part 4 12 q.now) h }
{
    round_under(s_table(), spread_table(), h, q)
}

// What the rounds keep: the register, and the block's halves beside it.
#[derive(Clone, Copy)]
struct State {
    register: [u8; 16],
    halves: Halves,
}

// Round i + 1: encryption makes its step after the round, decryption steps back before it.
fn turn(s: State, i: usize, direction: Direction) -> State
    requires { i < 16 }
    ensures { state_of result ≡ turn_of direction i (state_of s) }
{
    match direction {
        Direction::Encrypting => {
            let q = s.register;
            let halves = round(s.halves, &q);
            State {
                register: step(q, i),
                halves,
            }
        }
        Direction::Decrypting => {
            let q = step_back(s.register, 15 - i);
            State {
                register: q,
                halves: round(s.halves, &q),
            }
        }
    }
}

// All sixteen.
fn rounds(s: State, direction: Direction) -> State
    ensures { state_of result ≡ turns direction 16 (state_of s) }
{
    let mut state = s;
    for i in 0..16 {
        state = turn(state, i, direction);
    }
    state
}

// The register after so many steps.
#[tactic(auto, unfolding(standard::specs::Register::turned))]
fn turned(key: [u8; 16], steps: usize) -> [u8; 16]
    requires { steps ≤ 16 }
    ensures { result ≡ turned_of key steps }
{
    let mut q = key;
    for i in 0..steps {
        let next = step(q, i);
        q = next;
    }
    q
}

// A block under a key.
fn crypt(key: [u8; 16], block: [u8; 8], direction: Direction) -> [u8; 8]
    ensures { result ≡ crypt_of (λ i. round_key (schedule key) (place direction i)) block }
{
    let start = State {
        register: key,
        halves: split(block),
    };
    block_of(rounds(start, direction).halves)
}

// A call in either direction, over strings of any length; the two below are public beside those of `hurdle`, whose promises they keep.
#[tactic(auto, unfolding(hurdle::specs::RoundSteps::crypt_call))]
fn crypted(key: &[u8], block: &[u8], direction: Direction) -> Result<[u8; 8], Refusal>
    ensures { bytes8 result ≡ crypt_call key.now block.now direction }
{
    let (key, block) = both_exactly(key, block)?;
    Ok(crypt(key, block, direction))
}

#[tactic(auto, unfolding(hurdle::specs::RoundSteps::crypt_call, standard::specs::Hurdle::encrypt_call, standard::specs::Hurdle::encrypt))]
pub fn encrypt_register(key: &[u8], block: &[u8]) -> Result<[u8; 8], Refusal>
    ensures { bytes8 result ≡ encrypt_call key.now block.now }
{
    crypted(key, block, Direction::Encrypting)
}

#[tactic(auto, unfolding(hurdle::specs::RoundSteps::crypt_call, standard::specs::Hurdle::decrypt_call, standard::specs::Hurdle::decrypt))]
pub fn decrypt_register(key: &[u8], block: &[u8]) -> Result<[u8; 8], Refusal>
    ensures { bytes8 result ≡ decrypt_call key.now block.now }
{
    crypted(key, block, Direction::Decrypting)
}

// The register after any number of steps: after each sixteen they begin anew.
#[tactic(auto, unfolding(standard::specs::Register::register_call))]
pub fn register(key: &[u8], steps: u64) -> Result<[u8; 16], Refusal>
    ensures { bytes16 result ≡ register_call key.now steps }
{
    let key = exactly(key)?;
    Ok(turned(key, (steps % 16) as usize))
}
