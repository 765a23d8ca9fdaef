// f, and the sixteen rounds on the halves L and R, which are words here.
ghost use Rattle.std.specs.Prelude.{◌≡◌, ◌+◌, ◌-◌, ◌<◌, ◌≤◌, ◌++◌};
ghost use Rattle.standard.specs.Bytes.{◌!◌, ◌⊕◌, ◌⊞◌, table, part};
ghost use Rattle.standard.specs.Hurdle.{crypt as crypt_of, round_key as round_key_of};
ghost use Rattle.hurdle.specs.RoundSteps.{bytes4, link_over, linked, four_over, first_over, second_over, third_over, f_over, exchanged_by, round_over, rounds_over};
ghost use Rattle.hurdle.specs.RoundSteps.{place as place_of, HalvesOf};

use crate::tables::{s_table, spread_table};
use arrays::{join, part};
use std::num::wrapping_add_u8;

// The index of a link in S: (e + k) ⊕ t. With 256 added to one side the ⊕ is of two words; of two bytes the compiler would make a byte and
// widen it again, and each link of the chain would take a cycle more.
#[tactic(auto, using(crate::proofs::RoundLaws::xor_raised, standard::proofs::XorLaws::xor_byte))]
fn index(t: u8, e: u8, k: u8) -> usize
    ensures { (result ≡ (e ⊞ k) ⊕ t) × (result < 256) }
{
    ((usize::from(wrapping_add_u8(e, k)) + 256) ^ usize::from(t)) - 256
}

// A byte of f's chain, and the bits of it or of four, spread.
#[derive(Clone, Copy)]
pub(crate) struct Part {
    pub t: u8,
    pub y: u32,
}

// A link after t: S's byte and its bits, spread.
fn link(s: &[u8; 256], w: &[u32; 256], t: u8, e: u8, k: u8) -> Part
    ensures { result ≡ link_over s.now w.now ((e ⊞ k) ⊕ t) }
{
    let i = index(t, e, k);
    Part { t: s[i], y: w[i] }
}

// Four links after t: the last one's byte, and in byte n of the word the bits n of all four.
fn links(s: &[u8; 256], w: &[u32; 256], t: u8, e: [u8; 4], k: [u8; 4]) -> Part
    ensures { result ≡ four_over s.now w.now (table 4 (linked s.now t (◌!◌ e) (◌!◌ k))) }
{
    let a = link(s, w, t, e[0], k[0]);
    let b = link(s, w, a.t, e[1], k[1]);
    let c = link(s, w, b.t, e[2], k[2]);
    let d = link(s, w, c.t, e[3], k[3]);
    let sum = u64::from(a.y) + 2 * u64::from(b.y) + 4 * u64::from(c.y) + 8 * u64::from(d.y);
    Part {
        t: d.t,
        y: (sum % 4294967296) as u32,
    }
}

// Of a round key, the four bytes at n to n + 3, the rightmost first.
fn key_bytes(k: &[u8; 12], n: usize) -> [u8; 4]
    requires { n ≤ 8 }
    ensures { result ≡ table 4 (λ j. k.now ! (n + (3 - j))) }
{
    [k[n + 3], k[n + 2], k[n + 1], k[n]]
}

// f's chain in three fours of links; E numbers the bytes of a half from the rightmost on. The first ends with T3; T0 is a link after 0.
#[tactic(auto, unfolding(crate::specs::RoundSteps::links_over))]
pub(crate) fn first(s: &[u8; 256], w: &[u32; 256], x: u32, k: &[u8; 12]) -> u8
    ensures { result ≡ first_over s.now (bytes4 x) k.now }
{
    let p = links(s, w, 0, x.to_le_bytes(), key_bytes(k, 8));
    p.t
}

// T7, and the bits of T4 to T7.
#[tactic(auto, unfolding(crate::specs::RoundSteps::links_over, crate::specs::RoundSteps::second_over))]
pub(crate) fn second(s: &[u8; 256], w: &[u32; 256], t: u8, x: u32, k: &[u8; 12]) -> Part
    ensures { result ≡ second_over s.now w.now t (bytes4 x) k.now }
{
    let e = x.to_le_bytes();
    links(s, w, t, [e[0], e[2], e[1], e[3]], key_bytes(k, 4))
}

// T8 to T11, after T7: byte n of the result has bit n of T(m+4) as its bit m.
#[tactic(auto, unfolding(crate::specs::RoundSteps::links_over, crate::specs::RoundSteps::third_over))]
pub(crate) fn third(s: &[u8; 256], w: &[u32; 256], p: Part, x: u32, k: &[u8; 12]) -> u32
    ensures { result ≡ third_over s.now w.now p (bytes4 x) k.now }
{
    let e = x.to_le_bytes();
    let q = links(s, w, p.t, [e[2], e[0], e[3], e[1]], key_bytes(k, 0));
    ((u64::from(p.y) + 16 * u64::from(q.y)) % 4294967296) as u32
}

// f of a half and a round key, over tables that are lent. It stays a function: within the loop of the rounds it would take a twentieth more instructions.
#[inline(never)]
#[tactic(auto, unfolding(crate::specs::RoundSteps::f_over))]
fn f(s: &[u8; 256], w: &[u32; 256], x: u32, k: &[u8; 12]) -> u32
    ensures { result ≡ f_over s.now w.now (bytes4 x) k.now }
{
    let t = first(s, w, x, k);
    let p = second(s, w, t, x, k);
    third(s, w, p, x, k)
}

#[derive(Clone, Copy)]
pub struct Halves {
    pub l: u32,
    pub r: u32,
}

// The end of a round: R goes to the left, L ⊕ f's result to the right.
pub(crate) fn exchanged(h: Halves, y: u32) -> Halves
    ensures { result ≡ exchanged_by h y }
{
    Halves { l: h.r, r: h.l ^ y }
}

fn round(s: &[u8; 256], w: &[u32; 256], h: Halves, k: &[u8; 12]) -> Halves
    ensures { result ≡ round_over s.now w.now k.now h }
{
    exchanged(h, f(s, w, h.r, k))
}

// The round key in a register: bytes 11 to 0.
fn low_bytes(q: &[u8; 16]) -> &[u8; 12]
    ensures { result.now ≡ part 4 12 q.now }
{
    let (_, k) = q.as_rchunks::<12>();
    &k[0]
}

// A round under a register, over any tables in the places of S and of SPREAD.
pub fn round_under(s: &[u8; 256], w: &[u32; 256], h: Halves, q: &[u8; 16]) -> Halves
    ensures { result ≡ round_over s.now w.now (part 4 12 q.now) h }
{
    round(s, w, h, low_bytes(q))
}

// Which way a block goes through the rounds.
#[derive(Clone, Copy)]
pub enum Direction {
    Encrypting,
    Decrypting,
}

impl Direction {
    // The place of the round key that round i takes.
    pub(crate) fn place(self, i: usize) -> usize
        requires { i < 16 }
        ensures { (result ≡ place_of self i) × (result < 16) }
    {
        match self {
            Direction::Encrypting => i,
            Direction::Decrypting => 15 - i,
        }
    }
}

// One of the sixteen round keys that are laid out.
pub(crate) fn round_key(keys: &[u8; 192], n: usize) -> &[u8; 12]
    requires { n < 16 }
    ensures { result.now ≡ round_key_of keys.now n }
{
    let (laid, _) = keys.as_chunks::<12>();
    &laid[n]
}

// The halves of a block. Neither this nor the way back is a `From`: the way back is not the inverse, it exchanges the halves.
pub fn split(block: [u8; 8]) -> Halves
    ensures { HalvesOf block result }
{
    Halves {
        l: u32::from_be_bytes(part(&block, 0)),
        r: u32::from_be_bytes(part(&block, 4)),
    }
}

// R, then L.
pub fn block_of(h: Halves) -> [u8; 8]
    ensures { result ≡ bytes4 h.r ++ bytes4 h.l }
{
    join(h.r.to_be_bytes(), h.l.to_be_bytes())
}

#[tactic(auto, unfolding(crate::specs::RoundSteps::rounds_over))]
fn rounds(keys: &[u8; 192], h: Halves, direction: Direction) -> Halves
    ensures { result ≡ rounds_over direction keys.now 16 h }
{
    let s = s_table();
    let w = spread_table();
    let mut state = h;
    for i in 0..16 {
        state = round(s, w, state, round_key(keys, direction.place(i)));
    }
    state
}

// The block through sixteen rounds.
pub(crate) fn crypt(keys: &[u8; 192], block: [u8; 8], direction: Direction) -> [u8; 8]
    ensures { result ≡ crypt_of (λ i. round_key_of keys.now (place_of direction i)) block }
{
    block_of(rounds(keys, split(block), direction))
}
