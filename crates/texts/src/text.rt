// A sealed text of a body, and back, under the core's key.
ghost use Rattle.std.specs.Prelude.{not, ◌≡◌};
ghost use Rattle.standard.specs.Bytes.{bytes_of};
ghost use Rattle.standard.specs.Runs.{text_runs};
ghost use Rattle.standard.specs.Seals.{failed, clear, form_of, sealed as sealed_of, opened as opened_of, key10 as key10_of, key16 as key16_of, repeated};

use crate::forms::{body_of, failed_of, input_of, or_of};
use crate::text_core::{open_core, seal_core};
use arrays::{part, xor};
use cores::{CoreOutput, exp4};
use standard::{Algorithm, Version};
use std::array;

// The version written eight times, its high byte first.
fn written(version: Version) -> [u8; 16]
    ensures { result ≡ repeated 16 (bytes_of 2 version.0) }
{
    let v = version.0.to_be_bytes();
    array::from_fn(|i| v[i % 2])
}

// The core's key for kinds 2 to 6: the version written eight times ⊕ the sealing key.
#[tactic(auto, unfolding(standard::specs::Seals::key16))]
pub fn key16(sealing_key: [u8; 16], version: Version) -> [u8; 16]
    ensures { result ≡ key16_of sealing_key (bytes_of 2 version.0) }
{
    xor(written(version), sealing_key)
}

// For kind 1 it is expanded: the version written five times ⊕ the sealing key of ten bytes.
#[tactic(auto, unfolding(standard::specs::Seals::key10))]
pub fn key10(sealing_key: [u8; 10], version: Version) -> [u8; 16]
    ensures { result ≡ key10_of sealing_key (bytes_of 2 version.0) }
{
    let five_times = part(&written(version), 0);
    exp4(xor(five_times, sealing_key))
}

// The sealed text of a body.
#[tactic(auto, unfolding(standard::specs::Seals::sealed))]
pub fn seal_body(algorithm: Algorithm, key: [u8; 16], body: [u8; 12]) -> [u8; 15]
    ensures { result ≡ sealed_of (form_of algorithm) key body }
{
    seal_core(key, input_of(algorithm, body)).output
}

// The body of a sealed text, and a bit for each of its checks that fails.
#[derive(Clone, Copy, Debug, PartialEq, Eq)]
pub struct Opened {
    pub body: [u8; 12],
    pub failed: u16,
}

pub fn open_text(algorithm: Algorithm, key: [u8; 16], text: [u8; 15]) -> Opened
    ensures { result ≡ record { body = (form_of algorithm).shrink (opened_of key text); failed = failed (form_of algorithm) (opened_of key text) } }
{
    let u = open_core(key, text).output;
    Opened {
        body: body_of(algorithm, u),
        failed: failed_of(algorithm, u),
    }
}

// The flag alone, and the block cipher runs that the unsealing took.
#[derive(Clone, Copy, Debug, PartialEq, Eq)]
pub struct Flag {
    pub set: bool,
    pub runs: usize,
}

#[tactic(auto, using(standard::proofs::CheckLaws::or_clear))]
pub fn flag_of(algorithm: Algorithm, key: [u8; 16], text: [u8; 15]) -> Flag
    ensures { result ≡ record { set = not (clear (form_of algorithm) (opened_of key text)); runs = text_runs } }
{
    let CoreOutput { output, runs } = open_core(key, text);
    Flag {
        set: or_of(algorithm, output) != 0,
        runs,
    }
}
