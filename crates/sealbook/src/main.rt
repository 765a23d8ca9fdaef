// sealbook RING: seals the plain book on standard input to standard output.
#![tactic(auto)]

use books::seal_book;
use programs::{answer_version, read_input, read_ring, report_counted_answer, write_output};
use standard::{CountedAnswer, MOST_RECORDS, PLAIN_RECORD, SEALED_RECORD};

// The input has one byte more than the longest book, so that a longer one is seen to be longer. The ring goes to the call as far as it was
// read, so that a file that is too short is refused there. Not one function with openbook's: it would be public, and a public function has a contract.
fn main(rt: HostRuntime) {
    if answer_version(&rt, b"sealbook").is_some() {
        return;
    }
    let Some(ring) = read_ring(&rt, b"sealbook") else {
        return;
    };
    let mut plain = [0u8; PLAIN_RECORD * MOST_RECORDS + 1];
    let Some(n) = read_input(&rt, b"sealbook", &mut plain) else {
        return;
    };
    let mut sealed = [0u8; SEALED_RECORD * MOST_RECORDS];
    let answer = CountedAnswer::from(seal_book(ring.bytes(), &plain[..n], &mut sealed));
    // A refused book has no byte written.
    if write_output(&rt, b"sealbook", &sealed, answer.written) {
        report_counted_answer(&rt, answer);
    }
}
