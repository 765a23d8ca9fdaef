// A whole class of challenges under one session key: for each the response and the key that TA12 answers. The masks are tested and the
// round keys made once, and four challenges go side by side.
#![tactic(auto)]

ghost use Rattle.std.specs.Prelude.{◌++◌, ◌≡◌, ◌+◌, ◌*◌, ◌≤◌, length, drop};
ghost use Rattle.hurdle.specs.Lanes.{lane};
ghost use Rattle.lists.specs.Walks.{replace_at, replace_from};
ghost use Rattle.standard.specs.Answers.{book_answer};
ghost use Rattle.standard.specs.Classes.{ta12_class_call};
ghost use Rattle.standard.specs.Lists.{joined};
ghost use Rattle.standard.specs.Sizes.{authentication_size};
ghost use Rattle.classes.specs.ClassRecords.{record_from, record_of};

use arrays::exactly;
use cores::{bl1_with, exp2};
use cores_x4::bl1_with_x4;
use hurdle::schedule;
use keys::{Masks, choose};
use lists::lengths_and_output;
use standard::{AUTHENTICATION, CHALLENGE, RefusedAt, Written};

// The round keys of a session key, and the masks of its answers.
#[derive(Clone, Copy)]
struct Session {
    keys: [u8; 192],
    masks: Masks,
}

// The record of an output of the core: the response and the key, each in the part that as many bytes fill as its mask has ones.
#[tactic(auto, using(crate::proofs::ClassLaws::record_filled))]
fn write_record(output: [u8; 16], masks: Masks, out: &mut [u8])
    requires { length out.old ≡ authentication_size }
    ensures { out.new ≡ record_from masks.response masks.key output }
{
    let n = u16::count_ones(masks.response) as usize;
    let m = u16::count_ones(masks.key) as usize;
    choose(masks.response, output, &mut out[..n]);
    choose(masks.key, output, &mut out[n..n + m]);
}

impl Session {
    // At place i.
    fn write_at(&self, output: [u8; 16], i: usize, out: &mut [u8])
        requires { authentication_size * i + authentication_size ≤ length out.old }
        ensures { out.new ≡ replace_at authentication_size i (record_from self.now.masks.response self.now.masks.key output) out.old }
    {
        let b = AUTHENTICATION * i;
        write_record(output, self.masks, &mut out[b..b + AUTHENTICATION]);
    }

    // The record of a challenge, at place i.
    #[tactic(auto, unfolding(crate::specs::ClassRecords::record_with))]
    fn write_one(&self, challenge: &[u8; CHALLENGE], i: usize, out: &mut [u8])
        requires { authentication_size * i + authentication_size ≤ length out.old }
        ensures { out.new ≡ replace_at authentication_size i (record_of self.now challenge.now) out.old }
    {
        let o = bl1_with(&self.keys, exp2(*challenge));
        let output = o.output;
        self.write_at(output, i, out);
    }

    // The records of four challenges, from place i on.
    #[tactic(auto, unfolding(crate::specs::ClassRecords::record_with))]
    fn write_x4(&self, four: &[[u8; CHALLENGE]; 4], i: usize, out: &mut [u8])
        requires { authentication_size * (i + 4) ≤ length out.old }
        ensures { out.new ≡ replace_from authentication_size i (λ j. record_of self.now (lane four.now j)) 4 out.old }
    {
        let outputs = bl1_with_x4([&self.keys; 4], four.map(exp2));
        for (j, o) in outputs.iter().enumerate() {
            let output = o.output;
            self.write_at(output, i + j, out);
        }
    }

    // The records of all challenges, each at its own place in the output, four at a time and then the rest.
    fn write(&self, challenges: &[[u8; CHALLENGE]], out: &mut [u8])
        requires { authentication_size * length challenges.now ≤ length out.old }
        ensures { out.new
            ≡ joined (length challenges.now) (λ i. record_of self.now (lane challenges.now i))
            ++ drop (authentication_size * length challenges.now) out.old }
    {
        let (fours, rest) = challenges.as_chunks();
        for (k, four) in fours.iter().enumerate() {
            self.write_x4(four, 4 * k, out);
        }
        for (j, challenge) in rest.iter().enumerate() {
            self.write_one(challenge, 4 * fours.len() + j, out);
        }
    }
}

#[tactic(auto, using(crate::proofs::ClassLaws::key_refused, crate::proofs::ClassLaws::lengths_refused, crate::proofs::ClassLaws::masks_refused))]
pub fn ta12_class(
    session_key: &[u8],
    challenges: &[u8],
    response_mask: u16,
    key_mask: u16,
    out: &mut [u8],
) -> Result<Written, RefusedAt>
    ensures { (book_answer result, out.new)
        ≡ ta12_class_call session_key.now challenges.now response_mask key_mask out.old }
{
    let session_key = exactly(session_key)?;
    let records = lengths_and_output(
        CHALLENGE as u32,
        AUTHENTICATION as u32,
        challenges.len(),
        out.len(),
    )?;
    let masks = Masks::new(response_mask, key_mask)?;
    let session = Session {
        keys: schedule(session_key),
        masks,
    };
    let (challenges, _) = challenges.as_chunks();
    session.write(challenges, out);
    Ok(Written {
        records,
        bytes: AUTHENTICATION * records,
    })
}
