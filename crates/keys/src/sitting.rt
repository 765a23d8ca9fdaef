// The ring recipe on a sitting's file: root 16 bytes, RS, RSO, RAND1, RAND2 and C 10 each, group key 12, sides 1, response mask 2,
// key mask 2.
ghost use Rattle.std.specs.Prelude.{◌≡◌};
ghost use Rattle.standard.specs.Answers.{ring_made_answer};
ghost use Rattle.standard.specs.Programs.{sitting_ring};

use crate::ring_of;
use arrays::part;
use standard::{Refusal, RingAndResponses, RingInputs, SITTING, pair};

// A mask has its high byte first. A file of another length is refused with 11.
#[tactic(auto, unfolding(standard::specs::Programs::sitting_ring))]
pub fn sitting_ring(s: &[u8]) -> Result<RingAndResponses, Refusal>
    ensures { ring_made_answer result ≡ sitting_ring s.now }
{
    if s.len() != SITTING {
        return Err(Refusal::WrongLength);
    }
    ring_of(RingInputs {
        root: part(s, 0),
        rs: part(s, 16),
        rso: part(s, 26),
        rand1: part(s, 36),
        rand2: part(s, 46),
        c: part(s, 56),
        group_key: part(s, 66),
        sides: u64::from(s[78]),
        response_mask: pair(s[79], s[80]),
        key_mask: pair(s[81], s[82]),
    })
}
