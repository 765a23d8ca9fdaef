// The forms of the algorithms: BL1's data input from a body of 12 bytes, and the check and the body of BL2's 15 bytes.
ghost use Rattle.std.specs.Prelude.{◌≡◌};
ghost use Rattle.standard.specs.Bytes.{part};
ghost use Rattle.standard.specs.Seals.{checks, failed_of, failed, or_on, or_of, form_of, form31, form51, form81};

use arrays::part;
use cores::exp1_with;
use standard::Algorithm;

fn input31(body: [u8; 12]) -> [u8; 16]
    ensures { result ≡ form31.input body }
{
    exp1_with(part(&body, 0), 0)
}

fn input51(body: [u8; 12]) -> [u8; 16]
    ensures { result ≡ form51.input body }
{
    let [a, b, c, d, e, f, g, h, i, j, _, n] = body;
    let [ab, cde, fgh, ijn] = [a ^ b, c ^ d ^ e, f ^ g ^ h, i ^ j ^ n];
    [a, b, ab, c, d, e, cde, f, g, h, fgh, i, j, n, ijn, 0]
}

fn input81(body: [u8; 12]) -> [u8; 16]
    ensures { result ≡ form81.input body }
{
    let [a, b, c, d, e, f, g, h, i, j, k, l] = body;
    let [x, y, z] = [a ^ b ^ c ^ d, e ^ f ^ g ^ h, i ^ j ^ k ^ l];
    [a, b, c, d, x, e, f, g, h, y, i, j, k, l, z, 0]
}

// BL1's input from a body.
pub fn input_of(algorithm: Algorithm, b: [u8; 12]) -> [u8; 16]
    ensures { result ≡ (form_of algorithm).input b }
{
    match algorithm {
        Algorithm::Ta31 => input31(b),
        Algorithm::Ta51 => input51(b),
        Algorithm::Ta81 | Algorithm::Ta91 => input81(b),
    }
}

fn body31(u: [u8; 15]) -> [u8; 12]
    ensures { result ≡ form31.shrink u }
{
    let [a, b, _, c, d, _, e, f, _, g, h, _, i, j, _] = u;
    [a, b, c, d, e, f, g, h, i, j, 0, 0]
}

fn body51(u: [u8; 15]) -> [u8; 12]
    ensures { result ≡ form51.shrink u }
{
    let [a, b, _, c, d, e, _, f, g, h, _, i, j, n, _] = u;
    [a, b, c, d, e, f, g, h, i, j, 0, n % 32]
}

fn body81(u: [u8; 15]) -> [u8; 12]
    ensures { result ≡ form81.shrink u }
{
    let [a, b, c, d, _, e, f, g, h, _, i, j, k, l, _] = u;
    [a, b, c, d, e, f, g, h, i, j, k, l]
}

// The body of BL2's output.
pub fn body_of(algorithm: Algorithm, u: [u8; 15]) -> [u8; 12]
    ensures { result ≡ (form_of algorithm).shrink u }
{
    match algorithm {
        Algorithm::Ta31 => body31(u),
        Algorithm::Ta51 => body51(u),
        Algorithm::Ta81 | Algorithm::Ta91 => body81(u),
    }
}

// The checks, leftmost first: each inserted byte ⊕ what it should be the ⊕ of, 0 exactly if the check passes.
fn checks31(u: [u8; 15]) -> [u8; 5]
    ensures { result ≡ checks form31 u }
{
    let [a, b, v, c, d, w, e, f, x, g, h, y, i, j, z] = u;
    [a ^ b ^ v, c ^ d ^ w, e ^ f ^ x, g ^ h ^ y, i ^ j ^ z]
}

// The last one is the top three bits of the number byte.
fn checks51(u: [u8; 15]) -> [u8; 5]
    ensures { result ≡ checks form51 u }
{
    let [a, b, w, c, d, e, x, f, g, h, y, i, j, n, z] = u;
    [
        a ^ b ^ w,
        c ^ d ^ e ^ x,
        f ^ g ^ h ^ y,
        i ^ j ^ n ^ z,
        n / 32,
    ]
}

// Three checks, and two that pass.
fn checks81(u: [u8; 15]) -> [u8; 5]
    ensures { result ≡ part 0 5 (checks form81 u) }
{
    let [a, b, c, d, x, e, f, g, h, y, i, j, k, l, z] = u;
    [
        a ^ b ^ c ^ d ^ x,
        e ^ f ^ g ^ h ^ y,
        i ^ j ^ k ^ l ^ z,
        0,
        0,
    ]
}

fn checks_of(algorithm: Algorithm, u: [u8; 15]) -> [u8; 5]
    ensures { result ≡ part 0 5 (checks (form_of algorithm) u) }
{
    match algorithm {
        Algorithm::Ta31 => checks31(u),
        Algorithm::Ta51 => checks51(u),
        Algorithm::Ta81 | Algorithm::Ta91 => checks81(u),
    }
}

// The checks or-ed together: 0 exactly if none fails.
fn ored(checks: [u8; 5]) -> u8
    ensures { result ≡ or_on 0 (part 0 5 checks) }
{
    let [a, b, c, d, e] = checks;
    a | b | c | d | e
}

#[tactic(auto, using(crate::proofs::PadLaws::or_padded))]
pub(crate) fn or_of(algorithm: Algorithm, u: [u8; 15]) -> u8
    ensures { result ≡ or_of (form_of algorithm) u }
{
    ored(checks_of(algorithm, u))
}

// A bit for each check that fails, bit 0 for the leftmost.
fn marked(checks: [u8; 5]) -> u16
    ensures { result ≡ failed_of (part 0 5 checks) }
{
    let [a, b, c, d, e] = checks.map(|check| u16::from(check != 0));
    a + 2 * (b + 2 * (c + 2 * (d + 2 * e)))
}

pub(crate) fn failed_of(algorithm: Algorithm, u: [u8; 15]) -> u16
    ensures { result ≡ failed (form_of algorithm) u }
{
    marked(checks_of(algorithm, u))
}
