// What a record becomes: what the core gives for it, and what is made of that. For one record, and for four whose cores run side by side.
ghost use Rattle.std.specs.Prelude.{◌++◌, ◌≡◌, ◌+◌, ◌*◌, ◌<◌, ◌≤◌, length, take, drop};
ghost use Rattle.cores.specs.CoreOutputs.{counted};
ghost use Rattle.lists.specs.Walks.{replace_at, replace_from};
ghost use Rattle.standard.specs.Lists.{record_at};
ghost use Rattle.standard.specs.Runs.{text_runs};
ghost use Rattle.standard.specs.Sizes.{most_records};
ghost use Rattle.hurdle.specs.Lanes.{lanes, lent};
ghost use Rattle.books.specs.BothDirections.{size_of, output_size_of, kind_lane, core_of, made_of, convert_at};

use crate::direction::Direction;
use cores::{CoreOutput, bl2};
use cores_x4::bl2_x4;
use records::{core_key, kind_at, opening_input, sealing_input, write_opened, write_sealed};
use standard::{Kind, RingBytes};
use std::array;
use texts::{seal_core, seal_core_x4};

// What the core gives for a record of a kind.
#[tactic(auto, unfolding(standard::specs::Seals::sealed, standard::specs::Seals::opened))]
fn core(direction: Direction, kind: Kind, ring: &RingBytes, rec: &[u8]) -> CoreOutput<15>
    ensures { result ≡ counted (core_of ring.now direction kind rec.now) }
{
    let key = core_key(kind, ring, rec);
    match direction {
        Direction::Sealing => seal_core(key, sealing_input(kind, rec)),
        Direction::Opening => bl2(key, opening_input(rec)),
    }
}

// What the cores of four records give, side by side. The lanes are written out: made over them by `array::from_fn`, this did not prove.
#[tactic(auto, unfolding(standard::specs::Seals::sealed, standard::specs::Seals::opened))]
fn core_x4(
    direction: Direction,
    kinds: [Kind; 4],
    ring: &RingBytes,
    recs: [&[u8]; 4],
) -> [CoreOutput<15>; 4]
    ensures { result ≡ lanes (λ j. counted (core_of ring.now direction (kind_lane kinds j) (lent recs.entry j))) }
{
    let keys = [
        core_key(kinds[0], ring, recs[0]),
        core_key(kinds[1], ring, recs[1]),
        core_key(kinds[2], ring, recs[2]),
        core_key(kinds[3], ring, recs[3]),
    ];
    match direction {
        Direction::Sealing => seal_core_x4(
            keys,
            [
                sealing_input(kinds[0], recs[0]),
                sealing_input(kinds[1], recs[1]),
                sealing_input(kinds[2], recs[2]),
                sealing_input(kinds[3], recs[3]),
            ],
        ),
        Direction::Opening => bl2_x4(
            keys,
            [
                opening_input(recs[0]),
                opening_input(recs[1]),
                opening_input(recs[2]),
                opening_input(recs[3]),
            ],
        ),
    }
}

// What is made of the core's output, into the record's own part of the output.
fn write_record(
    direction: Direction,
    kind: Kind,
    identity_strings: [u8; 8],
    rec: &[u8],
    o: [u8; 15],
    out: &mut [u8],
)
    ensures { out.new
        ≡ take (length out.old) (made_of direction kind identity_strings rec.now o) ++ drop (output_size_of direction) out.old }
{
    match direction {
        Direction::Sealing => write_sealed(identity_strings, rec, o, out),
        Direction::Opening => write_opened(kind, identity_strings, rec, o, out),
    }
}

// A book of whole records, which are sealed or opened under a ring.
#[derive(Clone, Copy)]
pub(crate) struct Book<'a> {
    pub direction: Direction,
    pub ring: &'a RingBytes,
    pub bytes: &'a [u8],
    pub records: usize,
    ghost whole: { size_of direction * records ≤ length bytes.now },
    ghost few: { records ≤ most_records },
}

impl Book<'_> {
    // Record i, a part of the book.
    pub(crate) fn record_at(&self, i: usize) -> &[u8]
        requires { i < self.now.records }
        ensures { result.now ≡ record_at (size_of self.now.direction) self.now.bytes.now i }
    {
        let book = self.bytes;
        let size = self.direction.size() as usize;
        let a = size * i;
        &book[a..a + size]
    }

    // What is made of record i and the core's output, at its place. That the output has room is asked here and below: in a struct with the
    // output, each of these would have to say of all else in it that it stays.
    fn write_at(&self, kind: Kind, identity_strings: [u8; 8], i: usize, o: [u8; 15], out: &mut [u8])
        requires { (i < self.now.records) × (output_size_of self.now.direction * self.now.records ≤ length out.old) }
        ensures { out.new
            ≡ replace_at (output_size_of self.now.direction) i
            (made_of self.now.direction kind identity_strings (record_at (size_of self.now.direction) self.now.bytes.now i) o)
            out.old }
    {
        let output_size = self.direction.output_size() as usize;
        let b = output_size * i;
        write_record(
            self.direction,
            kind,
            identity_strings,
            self.record_at(i),
            o,
            &mut out[b..b + output_size],
        );
    }

    // Record i, converted; the block cipher runs that it took.
    pub(crate) fn convert_one(&self, identity_strings: [u8; 8], i: usize, out: &mut [u8]) -> usize
        requires { (i < self.now.records) × (output_size_of self.now.direction * self.now.records ≤ length out.old) }
        ensures { (out.new
            ≡ replace_at (output_size_of self.now.direction) i
            (convert_at self.now.ring.now identity_strings self.now.direction self.now.bytes.now i) out.old)
            × (result ≡ text_runs) }
    {
        let rec = self.record_at(i);
        let kind = kind_at(rec);
        let o = core(self.direction, kind, self.ring, rec);
        let output = o.output;
        self.write_at(kind, identity_strings, i, output, out);
        o.runs
    }

    // Records i to i + 3, converted; the block cipher runs that they took.
    pub(crate) fn convert_x4(&self, identity_strings: [u8; 8], i: usize, out: &mut [u8]) -> usize
        requires { (i + 4 ≤ self.now.records) × (output_size_of self.now.direction * self.now.records ≤ length out.old) }
        ensures { (out.new
            ≡ replace_from (output_size_of self.now.direction) i
            (λ j. convert_at self.now.ring.now identity_strings self.now.direction self.now.bytes.now (i + j)) 4 out.old)
            × (result ≡ 4 * text_runs) }
    {
        let recs: [&[u8]; 4] = array::from_fn(|j| self.record_at(i + j));
        let kinds = recs.map(kind_at);
        let o = core_x4(self.direction, kinds, self.ring, recs);
        let mut runs = 0;
        for j in 0..4 {
            let output = o[j].output;
            self.write_at(kinds[j], identity_strings, i + j, output, out);
            runs += o[j].runs;
        }
        runs
    }
}
