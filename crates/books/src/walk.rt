// The walk over a book's records. A scan hands each record, as a part of the book, to a function that knows one record only; the pass
// that writes leaves that to `convert`, for one record or for four.
ghost use Rattle.std.specs.Prelude.{◌++◌, ◌≡◌, ◌*◌, ◌<◌, ◌≤◌, length, drop, MatchResult};
ghost use Rattle.lists.specs.Walks.{Clean, FirstFault};
ghost use Rattle.records.specs.Inspections.{inspected};
ghost use Rattle.standard.specs.Lists.{each};
ghost use Rattle.standard.specs.Runs.{first_pass, second_pass};
ghost use Rattle.books.specs.BothDirections.{size_of, output_size_of, fault_of, inspection_of, record_of, fault_at, inspection_at};

use crate::convert::Book;
use crate::direction::Direction;
use records::{Inspection, check_record, identity_strings_of, inspect_sealed};
use standard::{CountedRefusal, RingBytes};

// The inspection of a record.
fn inspect(direction: Direction, ring: &RingBytes, rec: &[u8]) -> Inspection
    ensures { inspected result ≡ (fault_of ring.now direction rec.now, inspection_of direction rec.now) }
{
    match direction {
        Direction::Sealing => Inspection {
            found: check_record(rec),
            runs: 0,
        },
        Direction::Opening => inspect_sealed(ring, rec),
    }
}

impl Book<'_> {
    fn inspect_at(&self, i: usize) -> Inspection
        requires { i < self.now.records }
        ensures { inspected result
            ≡ (fault_at self.now.ring.now self.now.direction self.now.bytes.now i, inspection_at self.now.direction self.now.bytes.now i) }
    {
        inspect(self.direction, self.ring, self.record_at(i))
    }

    // The block cipher runs of a scan that refuses no record; or the first record that is refused.
    pub(crate) fn scan(&self) -> Result<usize, CountedRefusal>
        ensures { let fault = fault_at self.now.ring.now self.now.direction self.now.bytes.now in
            let runs = first_pass self.now.records fault (inspection_at self.now.direction self.now.bytes.now) in
            MatchResult result
            (λ n. Clean fault self.now.records × (n ≡ runs))
            (λ at. FirstFault self.now.records fault at.refusal at.index × (at.runs ≡ runs)) }
    {
        let mut runs = 0;
        for index in 0..self.records {
            let inspection = self.inspect_at(index);
            runs += inspection.runs;
            if let Err(refusal) = inspection.found {
                return Err(CountedRefusal {
                    refusal,
                    index,
                    runs,
                });
            }
        }
        Ok(runs)
    }

    // The converted records, each at its own place in the output, four at a time and then the rest; the block cipher runs that they took.
    // The identity strings are made once for a book, and for no empty one.
    pub(crate) fn write(&self, out: &mut [u8]) -> usize
        requires { output_size_of self.now.direction * self.now.records ≤ length out.old }
        ensures { (out.new
            ≡ each self.now.records (size_of self.now.direction) (record_of self.now.ring.now self.now.direction) self.now.bytes.now
            ++ drop (output_size_of self.now.direction * self.now.records) out.old)
            × (result ≡ second_pass self.now.records) }
    {
        if self.records == 0 {
            return 0;
        }
        let identity_strings = identity_strings_of(self.ring);
        let b = identity_strings.bytes;
        let mut runs = identity_strings.runs;
        let fours = self.records / 4;
        for k in 0..fours {
            let four = self.convert_x4(b, 4 * k, out);
            runs += four;
        }
        for i in 4 * fours..self.records {
            let one = self.convert_one(b, i, out);
            runs += one;
        }
        runs
    }
}
