// Four blocks side by side, one to a lane, each lane under round keys of its own. In a block each lookup waits for the one before; the
// lanes take four links in turn, so that the lookups of one overlap with those of the others.
ghost use Rattle.std.specs.Prelude.{◌≡◌, ◌<◌, ◌++◌};
ghost use Rattle.standard.specs.Bytes.{◌!◌};
ghost use Rattle.standard.specs.Hurdle.{crypt as crypt_of, round_key as round_key_of};
ghost use Rattle.hurdle.specs.Lanes.{lanes, lane, lent, each_lane};
ghost use Rattle.hurdle.specs.RoundSteps.{bytes4, f_over, round_over, rounds_over, place as place_of, HalvesOf, halves_at};

use crate::round::{
    Direction, Halves, Part, block_of, exchanged, first, round_key, second, split, third,
};
use crate::tables::{s_table, spread_table};
use std::array;

// f in each lane, four links at a time.
#[tactic(auto, unfolding(crate::specs::RoundSteps::f_over))]
fn f_x4(s: &[u8; 256], w: &[u32; 256], h: [Halves; 4], k: [&[u8; 12]; 4]) -> [u32; 4]
    ensures { each_lane (λ j. result ! j ≡ f_over s.now w.now (bytes4 (halves_at h j).r) (lent k.entry j)) }
{
    let t: [u8; 4] = array::from_fn(|j| first(s, w, h[j].r, k[j]));
    let p: [Part; 4] = array::from_fn(|j| second(s, w, t[j], h[j].r, k[j]));
    array::from_fn(|j| third(s, w, p[j], h[j].r, k[j]))
}

// A round in each lane.
fn round_x4(s: &[u8; 256], w: &[u32; 256], h: [Halves; 4], k: [&[u8; 12]; 4]) -> [Halves; 4]
    ensures { each_lane (λ j. halves_at result j ≡ round_over s.now w.now (lent k.entry j) (halves_at h j)) }
{
    let y = f_x4(s, w, h, k);
    array::from_fn(|j| exchanged(h[j], y[j]))
}

// The round keys at one place in each lane.
fn round_keys(keys: [&[u8; 192]; 4], n: usize) -> [&[u8; 12]; 4]
    requires { n < 16 }
    ensures { each_lane (λ j. lent result j ≡ round_key_of (lent keys.entry j) n) }
{
    keys.map(|k| round_key(k, n))
}

// The sixteen rounds in each lane.
#[tactic(auto, unfolding(crate::specs::RoundSteps::rounds_over))]
fn rounds_x4(keys: [&[u8; 192]; 4], h: [Halves; 4], direction: Direction) -> [Halves; 4]
    ensures { each_lane (λ j. halves_at result j ≡ rounds_over direction (lent keys.entry j) 16 (halves_at h j)) }
{
    let s = s_table();
    let w = spread_table();
    let mut state = h;
    for i in 0..16 {
        let next = round_x4(s, w, state, round_keys(keys, direction.place(i)));
        state = next;
    }
    state
}

fn split_x4(x: [[u8; 8]; 4]) -> [Halves; 4]
    ensures { each_lane (λ j. HalvesOf (lane x j) (halves_at result j)) }
{
    x.map(split)
}

fn blocks_of(h: [Halves; 4]) -> [[u8; 8]; 4]
    ensures { each_lane (λ j. lane result j ≡ bytes4 (halves_at h j).r ++ bytes4 (halves_at h j).l) }
{
    h.map(block_of)
}

// The four blocks through sixteen rounds.
pub(crate) fn crypt_x4(keys: [&[u8; 192]; 4], x: [[u8; 8]; 4], direction: Direction) -> [[u8; 8]; 4]
    ensures { result ≡ lanes (λ j. crypt_of (λ i. round_key_of (lent keys.entry j) (place_of direction i)) (lane x j)) }
{
    blocks_of(rounds_x4(keys, split_x4(x), direction))
}
