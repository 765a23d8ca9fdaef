// The ring recipe on typed arrays.
ghost use Rattle.std.specs.Prelude.{◌≡◌, Ok};
ghost use Rattle.standard.specs.Answers.{authentication_answer, ring_made_answer};
ghost use Rattle.standard.specs.Keys.{core as core_of, half as half_of, ring_answer};

use crate::derivation::{core, reversed};
use crate::masks::Masks;
use arrays::join;
use mixing::{tb4_of, tb7_of};
use standard::{ResponseAndKey, RingAndResponses, RingInputs};

// One half of the recipe: a session key from root and seed, and what it answers to a challenge. A half that does not run answers zero bytes,
// with no cipher run.
fn half(
    // Not an Option of a seed: the definition (`Keys.half`) takes the output of the half that does not run, too.
    runs: bool,
    root: [u8; 16],
    seed: [u8; 10],
    challenge: [u8; 10],
    masks: Masks,
) -> ResponseAndKey
    ensures { authentication_answer (Ok result) ≡ half_of runs masks.response masks.key (core_of (core_of root seed) challenge) }
{
    if !runs {
        return ResponseAndKey {
            response: [0; 4],
            key: [0; 10],
        };
    }
    masks.split(core(core(root, seed), challenge))
}

// D, O, C and G, and both responses. `masks` are those of x.
pub(crate) fn make(x: RingInputs, masks: Masks) -> RingAndResponses
    requires { (masks.response ≡ x.response_mask) × (masks.key ≡ x.key_mask) }
    ensures { ring_made_answer (Ok result) ≡ ring_answer 0 x }
{
    let root = x.root;
    let rs = x.rs;
    let rso = x.rso;
    let rand1 = x.rand1;
    let rand2 = x.rand2;
    let c = x.c;
    let group_key = x.group_key;
    let first = half(x.sides != 2, root, rs, rand1, masks);
    let second = half(x.sides != 1, root, reversed(rs), rand2, masks);
    let d = tb4_of(first.key, second.key);
    let front: [u8; 26] = join(d, core(root, rso));
    let back: [u8; 26] = join(c, tb7_of(group_key));
    let response1 = first.response;
    let response2 = second.response;
    RingAndResponses {
        ring: join(front, back),
        response1,
        response2,
    }
}
