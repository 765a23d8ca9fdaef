// TA61 and its inverse: the K strings, the permutation P, and the calls.
#![tactic(auto)]

ghost use Rattle.std.specs.Prelude.{◌≡◌, ◌+◌, ◌-◌, ◌%◌, [], ◌∷◌, Ok, Err};
ghost use Rattle.standard.specs.Answers.{identity_answer};
ghost use Rattle.standard.specs.Bytes.{◌!◌, ◌⊕◌, choose, table, xors, bytes_of, number3 as number3_of};
ghost use Rattle.standard.specs.Identity.{mix as mix_of, unmixed as unmixed_of, P, P⁻¹, bc as bc_of, K1, K2, K3};
ghost use Rattle.standard.specs.Identity.{encrypt_identity, decrypt_identity, ta61_call, ta61⁻¹_call};
ghost use Rattle.standard.specs.Refusals.{fits, has_length};
ghost use Rattle.standard.specs.Runs.{identity_runs};
ghost use Rattle.standard.specs.declared.Refusal.TheVariants.{ValueWide, WrongLength};

use arrays::{bytes3, exactly, part, xor};
use cores::exp4;
use hurdle::{encrypt_block, substitute, substitute_back};
use standard::{IDENTITY_RUNS, Refusal};
use std::num::{wrapping_add_u8, wrapping_sub_u8};

fn difference(a: u8, b: u8) -> u8
    ensures { result ≡ (a + 256 - b) % 256 }
{
    wrapping_sub_u8(a, b)
}

// 2x + 2y − z, modulo 256.
fn mix(x: u8, y: u8, z: u8) -> u8
    ensures { result ≡ mix_of x y z }
{
    let sum = wrapping_add_u8(wrapping_add_u8(x, x), wrapping_add_u8(y, y));
    difference(sum, z)
}

fn mixed(a: [u8; 3]) -> [u8; 3]
    ensures { result ≡ mix_of (a ! 0) (a ! 1) (a ! 2) ∷ mix_of (a ! 0) (a ! 2) (a ! 1) ∷ mix_of (a ! 1) (a ! 2) (a ! 0) ∷ [] }
{
    let [x, y, z] = a;
    [mix(x, y, z), mix(x, z, y), mix(y, z, x)]
}

// The matrix again, and then each byte by the inverse of 9.
fn unmixed(a: [u8; 3]) -> [u8; 3]
    ensures { result ≡ unmixed_of (a ! 0) (a ! 1) (a ! 2) }
{
    mixed(a).map(|m| (57 * u16::from(m) % 256) as u8)
}

#[tactic(auto, unfolding(standard::specs::Identity::P))]
fn permuted(a: [u8; 3]) -> [u8; 3]
    ensures { result ≡ P a }
{
    substitute(mixed(a))
}

fn permuted_back(o: [u8; 3]) -> [u8; 3]
    ensures { result ≡ P⁻¹ o }
{
    unmixed(substitute_back(o))
}

// The K strings, from the cipher run's output.
fn k_strings(b: [u8; 8]) -> [[u8; 3]; 3]
    ensures { result ≡ K1 b ∷ K2 b ∷ K3 b ∷ [] }
{
    [[b[0], b[3], b[6]], [b[1], b[4], b[7]], [b[2], b[5], b[0]]]
}

// The common key's ten bytes, shrunk to eight.
fn shrunk(a: [u8; 10]) -> [u8; 8]
    ensures { result ≡ table 8 (λ i. a ! i ⊕ a ! (i + 2)) }
{
    xor(part(&a, 0), part(&a, 2))
}

// The bytes from which the K strings come, and the block cipher runs that they took.
#[derive(Clone, Copy, Debug, PartialEq, Eq)]
pub struct IdentityStrings {
    pub bytes: [u8; 8],
    pub runs: usize,
}

// The one cipher run under a common key.
#[tactic(auto, unfolding(standard::specs::Identity::bc))]
pub fn bc(common_key: [u8; 10]) -> IdentityStrings
    ensures { result ≡ record { bytes = bc_of common_key; runs = identity_runs } }
{
    IdentityStrings {
        bytes: encrypt_block(exp4(common_key), shrunk(common_key)),
        runs: IDENTITY_RUNS,
    }
}

// ⊕ k, f, ⊕ l, f, ⊕ m.
fn between<F: Fn([u8; 3]) -> [u8; 3]>(
    f: F,
    k: [u8; 3],
    l: [u8; 3],
    m: [u8; 3],
    x: [u8; 3],
) -> [u8; 3]
    requires { F.IsAlwaysCallable f }
    ensures { (once : _) × (twice : _) × F.post f (xors 3 x k) once × F.post f (xors 3 once l) twice × (result ≡ xors 3 twice m) }
{
    xor(f(xor(f(xor(x, k)), l)), m)
}

// Three bytes of identity, encrypted, from the cipher run's output. It and its inverse are one walk, each promised by a definition of its own.
#[tactic(auto, unfolding(standard::specs::Identity::encrypt_identity))]
pub fn encrypt_identity(b: [u8; 8], x: [u8; 3]) -> [u8; 3]
    ensures { result ≡ encrypt_identity b x }
{
    let [k1, k2, k3] = k_strings(b);
    between(permuted, k1, k2, k3, x)
}

// And recovered.
#[tactic(auto, unfolding(standard::specs::Identity::decrypt_identity))]
pub fn decrypt_identity(b: [u8; 8], y: [u8; 3]) -> [u8; 3]
    ensures { result ≡ decrypt_identity b y }
{
    let [k1, k2, k3] = k_strings(b);
    between(permuted_back, k3, k2, k1, y)
}

// The calls, over strings of any length and numbers of any size.

// The cipher run's output and the identity's three bytes, if the key has ten bytes and the identity 24 bits.
fn output_and_bytes(common_key: &[u8], identity: u64) -> Result<([u8; 8], [u8; 3]), Refusal>
    ensures { result
        ≡ choose (has_length 10 common_key.now)
        (choose (fits 24 identity) (Ok (bc_of common_key.now, bytes_of 3 identity)) (Err ValueWide))
        (Err WrongLength) }
{
    let common_key = exactly(common_key)?;
    if identity >= 16777216 {
        return Err(Refusal::ValueWide);
    }
    let identity_strings = bc(common_key);
    let b = identity_strings.bytes;
    Ok((b, bytes3(identity)))
}

// No type of the language has three bytes.
fn number3(b: [u8; 3]) -> u32
    ensures { result ≡ number3_of b }
{
    u32::from_be_bytes([0, b[0], b[1], b[2]])
}

#[tactic(auto, unfolding(standard::specs::Identity::ta61_call))]
pub fn ta61(common_key: &[u8], identity: u64) -> Result<u32, Refusal>
    ensures { identity_answer result ≡ ta61_call common_key.now identity }
{
    let (b, x) = output_and_bytes(common_key, identity)?;
    Ok(number3(encrypt_identity(b, x)))
}

pub fn ta61_inverse(common_key: &[u8], encrypted_identity: u64) -> Result<u32, Refusal>
    ensures { identity_answer result ≡ ta61⁻¹_call common_key.now encrypted_identity }
{
    let (b, y) = output_and_bytes(common_key, encrypted_identity)?;
    Ok(number3(decrypt_identity(b, y)))
}
