// Which input gave a result: the inverses of TB1, TB3, TB5 and TB6. The fields are read off the first eight bytes, and answered if they
// give the whole result again.
#![tactic(auto)]

mod bits;

ghost use Rattle.std.specs.Prelude.{Ok, Err, [], ◌∷◌, ◌≡◌};
ghost use Rattle.standard.specs.Answers.{value_answer, cell_answer, carrier_identity_answer};
ghost use Rattle.standard.specs.Bytes.{choose, xors, same as same_of};
ghost use Rattle.standard.specs.Inverses.{field as field_of, tb1⁻¹_call, tb3⁻¹_call, tb5⁻¹_call, tb6⁻¹_call};
ghost use Rattle.standard.specs.declared.Refusal.TheVariants.{NoInput};

use crate::bits::field;
use arrays::{both_exactly, exactly, part, same, xor};
use mixing::{tb1, tb3, tb5, tb6, valid_width};
use standard::{CarrierFields, CellFields, Refusal};

// The first eight bytes of what was mixed into a key.
fn unmixed<const N: usize>(key: [u8; N], res: [u8; N]) -> [u8; 8]
    ensures { result ≡ xors 8 key.entry res.entry }
{
    xor(part(&key, 0), part(&res, 0))
}

// The fields, if what was made of them is the result. Each fits its width, so the algorithm that made it refused none.
fn confirmed<T: Copy, const N: usize>(fields: T, made: [u8; N], res: [u8; N]) -> Result<T, Refusal>
    ensures { result ≡ choose (same_of made.entry res.entry) (Ok fields) (Err NoInput) }
{
    if !same(&made, &res) {
        return Err(Refusal::NoInput);
    }
    Ok(fields)
}

#[tactic(auto, using(crate::proofs::AgainLaws::tb1_tests, crate::proofs::AgainLaws::tb1_again))]
pub fn tb1_inverse(res: &[u8], width: u64) -> Result<u32, Refusal>
    ensures { value_answer result ≡ tb1⁻¹_call res.now width }
{
    let res = exactly(res)?;
    if !valid_width(width) {
        return Err(Refusal::WrongWidth);
    }
    let value = field(part(&res, 0), 0, width);
    confirmed(value, tb1(value.into(), width)?, res)
}

#[tactic(auto, using(standard::proofs::RefusalLaws::both_taken, crate::proofs::AgainLaws::tb3_tests, crate::proofs::AgainLaws::tb3_again, crate::proofs::AgainLaws::tb3_found))]
pub fn tb3_inverse(input: &[u8], res: &[u8], width: u64) -> Result<u32, Refusal>
    ensures { value_answer result ≡ tb3⁻¹_call input.now res.now width }
{
    let (input, res) = both_exactly(input, res)?;
    if !valid_width(width) {
        return Err(Refusal::WrongWidth);
    }
    let value = field(unmixed(input, res), 0, width);
    confirmed(value, tb3(&input, value.into(), width)?, res)
}

#[tactic(auto, using(standard::proofs::RefusalLaws::both_taken, crate::proofs::AgainLaws::tb5_tests, crate::proofs::AgainLaws::tb5_again, crate::proofs::AgainLaws::tb5_found))]
pub fn tb5_inverse(cipher_key: &[u8], res: &[u8]) -> Result<CellFields, Refusal>
    ensures { cell_answer result ≡ tb5⁻¹_call cipher_key.now res.now }
{
    let (cipher_key, res) = both_exactly(cipher_key, res)?;
    let front = unmixed(cipher_key, res);
    let fields = CellFields {
        location_area: field(front, 0, 14),
        carrier: field(front, 14, 12),
        colour_code: field(front, 26, 6),
    };
    let made = tb5(
        &cipher_key,
        fields.location_area.into(),
        fields.carrier.into(),
        fields.colour_code.into(),
    )?;
    confirmed(fields, made, res)
}

#[tactic(auto, using(standard::proofs::RefusalLaws::both_taken, crate::proofs::AgainLaws::tb6_tests, crate::proofs::AgainLaws::tb6_again, crate::proofs::AgainLaws::tb6_found))]
pub fn tb6_inverse(cipher_key: &[u8], res: &[u8]) -> Result<CarrierFields, Refusal>
    ensures { carrier_identity_answer result ≡ tb6⁻¹_call cipher_key.now res.now }
{
    let (cipher_key, res) = both_exactly(cipher_key, res)?;
    let front = unmixed(cipher_key, res);
    let fields = CarrierFields {
        carrier: field(front, 0, 12),
        identity: field(front, 12, 24),
    };
    let made = tb6(&cipher_key, fields.carrier.into(), fields.identity.into())?;
    confirmed(fields, made, res)
}
