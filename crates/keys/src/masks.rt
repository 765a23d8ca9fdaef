// The two masks of TA12 and TA22: their tests, and the bytes that they choose.
ghost use Rattle.std.specs.Prelude.{◌++◌, ◌≡◌, length, take, drop, IfOk, Ok};
ghost use Rattle.std.specs.Int.Count.{ones};
ghost use Rattle.standard.specs.Answers.{authentication_answer, refused_by};
ghost use Rattle.standard.specs.Keys.{chosen, split as split_of};
ghost use Rattle.standard.specs.Refusals.{mask_tests, first};
ghost use Rattle.keys.specs.Masks.{Counted};

use standard::{Refusal, ResponseAndKey};

// Masks with four and ten ones. `new` makes them of those that no test refuses.
#[derive(Clone, Copy, Debug, PartialEq, Eq)]
pub struct Masks {
    pub response: u16,
    pub key: u16,
    ghost counted: { Counted response key },
}

impl Masks {
    // 7 and 8: the masks have four and ten ones, and share none.
    pub fn new(response: u16, key: u16) -> Result<Masks, Refusal>
        ensures tests { refused_by result ≡ first (mask_tests response key) }
        ensures masks { IfOk result (λ m. (m.response ≡ response) × (m.key ≡ key)) }
    {
        let counted = (u16::count_ones(response) == 4) & (u16::count_ones(key) == 10);
        if !counted {
            return Err(Refusal::WrongMask);
        }
        if response & key != 0 {
            return Err(Refusal::SharedBit);
        }
        Ok(Masks { response, key })
    }

    // The response and the key of an output. They have 4 and 10 bytes because the masks have passed their tests.
    pub(crate) fn split(self, output: [u8; 16]) -> ResponseAndKey
        ensures { authentication_answer (Ok result) ≡ split_of self.response self.key output }
    {
        let mut response = [0u8; 4];
        fill(self.response, output, &mut response);
        let mut key = [0u8; 10];
        fill(self.key, output, &mut key);
        ResponseAndKey { response, key }
    }
}

// Of the bytes B15 to B0 those whose bit is set, higher bytes first, into the front of the lent part, as far as both go.
pub fn choose(mask: u16, output: [u8; 16], out: &mut [u8])
    ensures { out.new ≡ take (length out.old) (chosen mask output) ++ drop (length (chosen mask output)) out.old }
{
    let mut k = 0;
    for j in 0..16 {
        if k == out.len() {
            break;
        }
        let chosen = (mask >> (15 - j)) % 2 == 1;
        if chosen {
            out[k] = output[j];
            k += 1;
        }
    }
}

// The lent part becomes all the bytes that the mask chooses, as many as it has ones.
fn fill(mask: u16, output: [u8; 16], out: &mut [u8])
    requires { length out.old ≡ ones mask }
    ensures { out.new ≡ chosen mask output }
{
    let n = u16::count_ones(mask) as usize;
    choose(mask, output, &mut out[..n]);
}
