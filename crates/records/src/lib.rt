// One record, and no more: its refusal, and what it becomes. Kind 1, identity 3, version 2, then a body of 12 bytes (plain) or a
// sealed text of 15.
#![tactic(auto)]

mod parts;

ghost use Rattle.std.specs.Prelude.{[], ◌∷◌, ◌++◌, ◌≡◌, eqb, leb, length, take, drop};
ghost use Rattle.standard.specs.Answers.{refused_by};
ghost use Rattle.standard.specs.Books.{common_key, record_kind, plain_fault, open_fault, inspection_runs};
ghost use Rattle.standard.specs.Bytes.{◌!◌, part};
ghost use Rattle.standard.specs.Identity.{bc as bc_of};
ghost use Rattle.standard.specs.Refusals.{not_zero, wrong_number, first};
ghost use Rattle.standard.specs.Runs.{identity_runs};
ghost use Rattle.standard.specs.Seals.{form, form31, with8 as with8_of};
ghost use Rattle.standard.specs.Sizes.{plain_size, sealed_size};
ghost use Rattle.records.specs.Inspections.{inspected};
ghost use Rattle.records.specs.RecordForms.{sealed_with, opened_with};

use crate::parts::{head_with, ring_c};
use arrays::{byte_at, copy, join, part};
use identity::{IdentityStrings, bc, decrypt_identity, encrypt_identity};
pub use parts::core_key;
use standard::{Algorithm, Kind, PLAIN_RECORD, Refusal, RingBytes, RingKey, SEALED_RECORD};
use texts::{body_of, flag_of, input_of, with8};

// A ring's identity strings, and the cipher run that they took.
pub fn identity_strings_of(ring: &RingBytes) -> IdentityStrings
    ensures { result ≡ record { bytes = bc_of (common_key ring.now); runs = identity_runs } }
{
    bc(ring_c(ring))
}

// A body of kind 1: its last two bytes are zero.
fn check31(b: [u8; 12]) -> Result<(), Refusal>
    ensures { refused_by result ≡ form31.fault b }
{
    if b[10] != 0 || b[11] != 0 {
        return Err(Refusal::NotZero);
    }
    Ok(())
}

// A body with a number byte: a zero byte, then a number up to the highest.
fn check51(b: [u8; 12], highest: u16) -> Result<(), Refusal>
    ensures { refused_by result ≡ first ((eqb (b ! 10) 0, not_zero) ∷ (leb (b ! 11) highest, wrong_number) ∷ []) }
{
    if b[10] != 0 {
        return Err(Refusal::NotZero);
    }
    if u16::from(b[11]) > highest {
        return Err(Refusal::WrongNumber);
    }
    Ok(())
}

fn check_body(kind: Kind, b: [u8; 12]) -> Result<(), Refusal>
    ensures { refused_by result ≡ (form kind).fault b }
{
    match kind.algorithm {
        Algorithm::Ta31 => check31(b),
        Algorithm::Ta51 => check51(b, kind.highest_number()),
        Algorithm::Ta81 | Algorithm::Ta91 => Ok(()),
    }
}

// A plain record, by itself.
#[tactic(auto, unfolding(standard::specs::Books::plain_fault))]
pub fn check_record(rec: &[u8]) -> Result<(), Refusal>
    ensures { refused_by result ≡ plain_fault rec.now }
{
    let kind = Kind::from_byte(byte_at(rec, 0)).ok_or(Refusal::WrongKind)?;
    check_body(kind, part(rec, 6))
}

// What the inspection of a record finds, and the block cipher runs that it took.
#[derive(Clone, Copy, Debug, PartialEq, Eq)]
pub struct Inspection {
    pub found: Result<(), Refusal>,
    pub runs: usize,
}

// The inspection of a sealed record under a ring.
#[tactic(auto, unfolding(standard::specs::Books::open_fault, standard::specs::Books::inspection_runs))]
pub fn inspect_sealed(ring: &RingBytes, rec: &[u8]) -> Inspection
    ensures { inspected result ≡ (open_fault ring.now rec.now, inspection_runs rec.now) }
{
    let Some(kind) = Kind::from_byte(byte_at(rec, 0)) else {
        return Inspection {
            found: Err(Refusal::WrongKind),
            runs: 0,
        };
    };
    let flag = flag_of(kind.algorithm, core_key(kind, ring, rec), part(rec, 6));
    Inspection {
        found: if flag.set {
            Err(Refusal::FlagSet)
        } else {
            Ok(())
        },
        runs: flag.runs,
    }
}

// The kind of a record that was not refused.
pub fn kind_at(rec: &[u8]) -> Kind
    ensures { result ≡ record_kind rec.now }
{
    Kind::from_byte(byte_at(rec, 0)).unwrap_or(Kind {
        algorithm: Algorithm::Ta91,
        under: RingKey::O,
    })
}

// What BL1 takes of a plain record of a kind.
pub fn sealing_input(kind: Kind, rec: &[u8]) -> [u8; 16]
    ensures { result ≡ (form kind).input (part 6 12 rec.now) }
{
    input_of(kind.algorithm, part(rec, 6))
}

// What BL2 takes of a sealed record, of whatever kind: its text.
pub fn opening_input(rec: &[u8]) -> [u8; 16]
    ensures { result ≡ with8_of (part 6 15 rec.now) }
{
    with8(part(rec, 6))
}

// The sealed record of a plain one and its sealed text, into its own part of the output. `identity_strings` are the ring's.
#[tactic(auto, unfolding(crate::specs::RecordForms::sealed_with))]
pub fn write_sealed(identity_strings: [u8; 8], rec: &[u8], text: [u8; 15], out: &mut [u8])
    ensures { out.new
        ≡ take (length out.old) (sealed_with identity_strings rec.now text) ++ drop sealed_size out.old }
{
    let encrypted = encrypt_identity(identity_strings, part(rec, 1));
    let sealed: [u8; SEALED_RECORD] = join(head_with(rec, encrypted), text);
    copy(&sealed, out);
}

// The plain record of a sealed one of a kind and what BL2 gives for it, into its own part of the output.
#[tactic(auto, unfolding(crate::specs::RecordForms::opened_with))]
pub fn write_opened(kind: Kind, identity_strings: [u8; 8], rec: &[u8], u: [u8; 15], out: &mut [u8])
    ensures { out.new
        ≡ take (length out.old) (opened_with kind identity_strings rec.now u) ++ drop plain_size out.old }
{
    let decrypted = decrypt_identity(identity_strings, part(rec, 1));
    let plain: [u8; PLAIN_RECORD] = join(head_with(rec, decrypted), body_of(kind.algorithm, u));
    copy(&plain, out);
}
