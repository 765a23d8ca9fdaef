// The calls that seal and unseal one key: TA31/TA32, TA51/TA52, TA81/TA82, TA91/TA92.
#![tactic(auto)]

ghost use Rattle.std.specs.Prelude.{[], ◌∷◌, ◌++◌, ◌≡◌, ◌&&◌, ◌+◌, ◌*◌, leb, Ok, Err};
ghost use Rattle.standard.specs.Answers.{bytes15, unsealed_answer, unsealed_group_answer, unsealed_numbered_answer};
ghost use Rattle.standard.specs.Bytes.{◌!◌, bytes_of, choose, part};
ghost use Rattle.standard.specs.Refusals.{has_length};
ghost use Rattle.standard.specs.Seals.{form_of, failed, highest_number, key16 as key16_of, sealed as sealed_of, opened as opened_of};
ghost use Rattle.standard.specs.Seals.{ta31_call, ta32_call, ta51_call, ta52_call, ta81_call, ta82_call, ta91_call, ta92_call};
ghost use Rattle.standard.specs.declared.Algorithm.TheVariants.{Ta51};
ghost use Rattle.standard.specs.declared.Refusal.TheVariants.{WrongLength, WrongNumber};

use arrays::{both_exactly, join, part};
use standard::{Algorithm, KeyNumber, Kind, Opened, OpenedNumbered, Refusal, Version, pair};
use texts::{key10, key16, open_text, seal_body};

// The sealed text of a cipher key and the two bytes after it, under the core's key.
#[tactic(auto, unfolding(standard::specs::Seals::sealed))]
fn seal_key(algorithm: Algorithm, key: [u8; 16], cipher_key: [u8; 10], number: [u8; 2]) -> [u8; 15]
    ensures { result ≡ sealed_of (form_of algorithm) key (part 0 10 cipher_key ++ part 0 2 number) }
{
    seal_body(algorithm, key, join(cipher_key, number))
}

// A text unsealed to a cipher key and its number, which TA51 seals after a zero byte. TA52 and TA82 are this, under the names that 000 gives
// them.
fn unseal_numbered(
    algorithm: Algorithm,
    text: &[u8],
    sealing_key: &[u8],
    version: Version,
) -> Result<OpenedNumbered, Refusal>
    ensures { let u = opened_of (key16_of sealing_key.now (bytes_of 2 version.0)) text.now in
        let b = (form_of algorithm).shrink u in
        result ≡ choose (has_length 15 text.now && has_length 16 sealing_key.now)
        (Ok (record { key = part 0 10 b; number = 256 * b ! 10 + b ! 11; failed_checks = failed (form_of algorithm) u }))
        (Err WrongLength) }
{
    let (text, sealing_key) = both_exactly(text, sealing_key)?;
    let opened = open_text(algorithm, key16(sealing_key, version), text);
    Ok(OpenedNumbered {
        key: part(&opened.body, 0),
        number: pair(opened.body[10], opened.body[11]),
        failed_checks: opened.failed,
    })
}

#[tactic(auto, unfolding(standard::specs::Seals::ta31_call, standard::specs::Seals::seal_call, standard::specs::Seals::seal, standard::specs::Seals::sealed))]
pub fn ta31(cipher_key: &[u8], version: Version, sealing_key: &[u8]) -> Result<[u8; 15], Refusal>
    ensures { bytes15 result ≡ ta31_call cipher_key.now version sealing_key.now }
{
    let (cipher_key, sealing_key) = both_exactly(cipher_key, sealing_key)?;
    let key = key10(sealing_key, version);
    Ok(seal_key(Algorithm::Ta31, key, cipher_key, [0, 0]))
}

#[tactic(auto, unfolding(standard::specs::Seals::ta32_call, standard::specs::Seals::unseal_call, standard::specs::Seals::unseal, standard::specs::Seals::fails))]
pub fn ta32(text: &[u8], sealing_key: &[u8], version: Version) -> Result<Opened<10>, Refusal>
    ensures { unsealed_answer result ≡ ta32_call text.now sealing_key.now version }
{
    let (text, sealing_key) = both_exactly(text, sealing_key)?;
    let opened = open_text(Algorithm::Ta31, key10(sealing_key, version), text);
    Ok(Opened {
        key: part(&opened.body, 0),
        failed_checks: opened.failed,
    })
}

// TA51's number, which has at most five bits.
fn number_of_five_bits(number: KeyNumber) -> Result<[u8; 2], Refusal>
    ensures { result ≡ choose (leb number.0 (highest_number Ta51)) (Ok (0 ∷ number.0 ∷ [])) (Err WrongNumber) }
{
    if number.0 > Kind::TA51_HIGHEST {
        return Err(Refusal::WrongNumber);
    }
    Ok([0, number.0 as u8])
}

#[tactic(auto, unfolding(standard::specs::Seals::ta51_call, standard::specs::Seals::seal_call, standard::specs::Seals::seal, standard::specs::Seals::sealed))]
pub fn ta51(
    cipher_key: &[u8],
    version: Version,
    sealing_key: &[u8],
    number: KeyNumber,
) -> Result<[u8; 15], Refusal>
    ensures { bytes15 result ≡ ta51_call cipher_key.now version sealing_key.now number }
{
    let (cipher_key, sealing_key) = both_exactly(cipher_key, sealing_key)?;
    let number = number_of_five_bits(number)?;
    let key = key16(sealing_key, version);
    Ok(seal_key(Algorithm::Ta51, key, cipher_key, number))
}

#[tactic(auto, unfolding(standard::specs::Seals::ta52_call, standard::specs::Seals::unseal_call, standard::specs::Seals::unseal, standard::specs::Seals::fails))]
pub fn ta52(text: &[u8], sealing_key: &[u8], version: Version) -> Result<OpenedNumbered, Refusal>
    ensures { unsealed_numbered_answer result ≡ ta52_call text.now sealing_key.now version }
{
    unseal_numbered(Algorithm::Ta51, text, sealing_key, version)
}

#[tactic(auto, unfolding(standard::specs::Seals::ta81_call, standard::specs::Seals::seal_call, standard::specs::Seals::seal, standard::specs::Seals::sealed))]
pub fn ta81(
    cipher_key: &[u8],
    version: Version,
    sealing_key: &[u8],
    number: KeyNumber,
) -> Result<[u8; 15], Refusal>
    ensures { bytes15 result ≡ ta81_call cipher_key.now version sealing_key.now number }
{
    let (cipher_key, sealing_key) = both_exactly(cipher_key, sealing_key)?;
    let number = number.0.to_be_bytes();
    let key = key16(sealing_key, version);
    Ok(seal_key(Algorithm::Ta81, key, cipher_key, number))
}

#[tactic(auto, unfolding(standard::specs::Seals::ta82_call, standard::specs::Seals::unseal_call, standard::specs::Seals::unseal, standard::specs::Seals::fails))]
pub fn ta82(text: &[u8], sealing_key: &[u8], version: Version) -> Result<OpenedNumbered, Refusal>
    ensures { unsealed_numbered_answer result ≡ ta82_call text.now sealing_key.now version }
{
    unseal_numbered(Algorithm::Ta81, text, sealing_key, version)
}

#[tactic(auto, unfolding(standard::specs::Seals::ta91_call, standard::specs::Seals::seal_call, standard::specs::Seals::seal, standard::specs::Seals::sealed))]
pub fn ta91(group_key: &[u8], version: Version, sealing_key: &[u8]) -> Result<[u8; 15], Refusal>
    ensures { bytes15 result ≡ ta91_call group_key.now version sealing_key.now }
{
    let (group_key, sealing_key) = both_exactly(group_key, sealing_key)?;
    let key = key16(sealing_key, version);
    Ok(seal_body(Algorithm::Ta91, key, group_key))
}

#[tactic(auto, unfolding(standard::specs::Seals::ta92_call, standard::specs::Seals::unseal_call, standard::specs::Seals::unseal, standard::specs::Seals::fails))]
pub fn ta92(text: &[u8], sealing_key: &[u8], version: Version) -> Result<Opened<12>, Refusal>
    ensures { unsealed_group_answer result ≡ ta92_call text.now sealing_key.now version }
{
    let (text, sealing_key) = both_exactly(text, sealing_key)?;
    let opened = open_text(Algorithm::Ta91, key16(sealing_key, version), text);
    let key = opened.body;
    Ok(Opened {
        key,
        failed_checks: opened.failed,
    })
}
