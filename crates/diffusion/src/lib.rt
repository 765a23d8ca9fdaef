// The diffusion tally: each bit of a record's block is flipped in turn, and the bits by which HURDLE-II's output changes are counted. The
// round keys are made once for a record, and the cipher takes four flips side by side.
#![tactic(auto)]

mod figures;

ghost use Rattle.std.specs.Prelude.{◌≡◌, ◌+◌, ◌*◌, ◌/◌, ◌<◌, ◌≤◌, All, length};
ghost use Rattle.hurdle.specs.Lanes.{lanes, lane};
ghost use Rattle.standard.specs.Answers.{tally_answer};
ghost use Rattle.standard.specs.Bytes.{xors};
ghost use Rattle.standard.specs.Diffusion.{flipped, bits_set, record_changes, diffusion_call};
ghost use Rattle.standard.specs.Hurdle.{encrypt_with};
ghost use Rattle.standard.specs.Lists.{each};
ghost use Rattle.standard.specs.Sizes.{diffusion_size, most_records};
ghost use Rattle.diffusion.specs.ChangeCounts.{change_with, none, Counted};

use crate::figures::Figures;
use arrays::{part, xor};
use hurdle::{encrypt_with, encrypt_with_x4, schedule};
use lists::lengths;
use standard::{Changes, DIFFUSION_RECORD, Refusal};
use std::array;

// A block with bit i flipped.
#[tactic(auto, using(std::proofs::lemmas::Nat::one_shl), unfolding(standard::specs::Diffusion::flipped))]
fn flip(block: [u8; 8], i: usize) -> [u8; 8]
    requires { i < 64 }
    ensures { result ≡ flipped i block }
{
    xor(block, (1u64 << i).to_be_bytes())
}

// How many bits differ in two blocks.
fn changed(a: [u8; 8], b: [u8; 8]) -> u32
    ensures { (result ≡ bits_set (xors 8 a b)) × (result ≤ 64) }
{
    u64::from_be_bytes(xor(a, b)).count_ones()
}

// The flips of four bits, from bit i on.
fn flip_x4(block: [u8; 8], i: usize) -> [[u8; 8]; 4]
    requires { i + 4 ≤ 64 }
    ensures { result ≡ lanes (λ j. flipped (i + j) block) }
{
    array::from_fn(
        |j|
            requires { i + j < 64 }
            ensures { result ≡ flipped (i + j) block }
        { flip(block, i + j) },
    )
}

// How many bits of each lane differ from those of the output.
fn changed_x4(output: [u8; 8], y: [[u8; 8]; 4]) -> [u32; 4]
    ensures value { result ≡ lanes (λ j. bits_set (xors 8 output (lane y j))) }
    ensures most { All (λ c. c ≤ 64) result }
{
    array::from_fn(
        |j|
            requires { j < 4 }
            ensures value { result ≡ bits_set (xors 8 output (lane y j)) }
            ensures most { result ≤ 64 }
        { changed(output, y[j]) },
    )
}

// The changes of four flips, from bit i on. `output` is the block's own.
#[tactic(auto, unfolding(crate::specs::ChangeCounts::change_with))]
fn changes_x4(keys: &[u8; 192], block: [u8; 8], output: [u8; 8], i: usize) -> [u32; 4]
    requires output_value { output ≡ encrypt_with keys.now block }
    requires i_bound { i + 4 ≤ 64 }
    ensures value { result ≡ lanes (λ j. change_with keys.now block (i + j)) }
    ensures most { All (λ c. c ≤ 64) result }
{
    changed_x4(output, encrypt_with_x4([keys; 4], flip_x4(block, i)))
}

// The changes of a record, counted after those so far.
#[tactic(auto, using(standard::proofs::BytesLaws::length_table))]
fn count_record(rec: &[u8; DIFFUSION_RECORD], before: Figures) -> Figures
    requires { before.total ≤ 4096 * most_records }
    ensures { Counted before (record_changes rec.now) result }
{
    let keys = schedule(part(rec, 0));
    let block = part(rec, 16);
    let output = encrypt_with(&keys, block);
    let mut figures = before;
    for q in 0..16 {
        figures = figures.and_all(&changes_x4(&keys, block, output, 4 * q));
    }
    figures
}

// The changes of a list of whole records.
fn count(list: &[u8]) -> Figures
    requires { length list.now / diffusion_size ≤ most_records }
    ensures { Counted none (each (length list.now / diffusion_size) diffusion_size record_changes list.now) result }
{
    let (records, _) = list.as_chunks::<DIFFUSION_RECORD>();
    let mut figures = Figures::NONE;
    for rec in records {
        figures = count_record(rec, figures);
    }
    figures
}

#[tactic(auto, using(crate::proofs::CountLaws::list_refused))]
pub fn diffusion(records: &[u8]) -> Result<Changes, Refusal>
    ensures { tally_answer result ≡ diffusion_call records.now }
{
    let n = lengths(DIFFUSION_RECORD as u32, records.len())?;
    let figures = count(records);
    Ok(Changes {
        flips: 64 * n as u32,
        total: figures.total,
        least: if n == 0 { 0 } else { figures.least },
        greatest: figures.greatest,
    })
}
