// BL1 and BL2 of four strings side by side, one to a lane, each lane under a key of its own.
#![tactic(auto)]

ghost use Rattle.std.specs.Prelude.{[], ◌∷◌, ◌++◌, ◌≡◌};
ghost use Rattle.hurdle.specs.Lanes.{lanes, lane, lent};
ghost use Rattle.cores.specs.CoreOutputs.{bl2_with, counted};
ghost use Rattle.standard.specs.Bytes.{◌!◌, ◌⊕◌, part, xors};
ghost use Rattle.standard.specs.Cores.{bl1_with, bl1, bl2};

use cores::{CoreOutput, bl1_output, bl1_right_input, bl2_left_input, bl2_output, left, right};
use hurdle::{decrypt_with_x4, encrypt_with_x4, schedule};
use std::array;

// The lanes are written out: nothing is known of an array that a closure gives.
fn bl1_right_input_x4(x: [[u8; 16]; 4], l: [[u8; 8]; 4]) -> [[u8; 8]; 4]
    ensures { result ≡ lanes (λ j. xors 8 (part 8 8 (lane x j)) (lane l j)) }
{
    [
        bl1_right_input(x[0], l[0]),
        bl1_right_input(x[1], l[1]),
        bl1_right_input(x[2], l[2]),
        bl1_right_input(x[3], l[3]),
    ]
}

// BL1 in each lane, under round keys that were laid out before.
pub fn bl1_with_x4(keys: [&[u8; 192]; 4], x: [[u8; 16]; 4]) -> [CoreOutput<16>; 4]
    ensures { result ≡ lanes (λ j. counted (bl1_with (lent keys.entry j) (lane x j))) }
{
    let l = encrypt_with_x4(keys, x.map(left));
    let r = encrypt_with_x4(keys, bl1_right_input_x4(x, l));
    array::from_fn(|j| bl1_output(l[j], r[j]))
}

// Four keys by name: an array of them would be copied, and the four cores would take 3 % longer.
#[tactic(auto, unfolding(standard::specs::Cores::bl1))]
pub fn bl1_x4(k: [[u8; 16]; 4], x: [[u8; 16]; 4]) -> [CoreOutput<16>; 4]
    ensures { result ≡ lanes (λ j. counted (bl1 (lane k j) (lane x j))) }
{
    let ka = schedule(k[0]);
    let kb = schedule(k[1]);
    let kc = schedule(k[2]);
    let kd = schedule(k[3]);
    bl1_with_x4([&ka, &kb, &kc, &kd], x)
}

// Written out for the same reason.
fn bl2_left_input_x4(y: [[u8; 16]; 4], r: [[u8; 8]; 4]) -> [[u8; 8]; 4]
    ensures { result ≡ lanes (λ j. part 0 7 (lane y j) ++ ((lane y j ! 7 ⊕ lane r j ! 7) ∷ [])) }
{
    [
        bl2_left_input(y[0], r[0]),
        bl2_left_input(y[1], r[1]),
        bl2_left_input(y[2], r[2]),
        bl2_left_input(y[3], r[3]),
    ]
}

fn bl2_with_x4(keys: [&[u8; 192]; 4], y: [[u8; 16]; 4]) -> [CoreOutput<15>; 4]
    ensures { result ≡ lanes (λ j. counted (bl2_with (lent keys.entry j) (lane y j))) }
{
    let r = decrypt_with_x4(keys, y.map(right));
    let l = decrypt_with_x4(keys, bl2_left_input_x4(y, r));
    array::from_fn(|j| bl2_output(l[j], r[j], y[j]))
}

// By name for the same reason.
#[tactic(auto, unfolding(cores::specs::CoreOutputs::bl2_with, standard::specs::Cores::bl2, standard::specs::Hurdle::decrypt))]
pub fn bl2_x4(k: [[u8; 16]; 4], y: [[u8; 16]; 4]) -> [CoreOutput<15>; 4]
    ensures { result ≡ lanes (λ j. counted (bl2 (lane k j) (lane y j))) }
{
    let ka = schedule(k[0]);
    let kb = schedule(k[1]);
    let kc = schedule(k[2]);
    let kd = schedule(k[3]);
    bl2_with_x4([&ka, &kb, &kc, &kd], y)
}
