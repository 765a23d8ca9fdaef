// Reads a plain book from standard input to its end, and prints its listing, or the line of its refusal.
#![tactic(auto)]

use plain_listing::{LISTING, list_plain};
use programs::{answer_version, read_input, write_output};
use standard::{MOST_RECORDS, PLAIN_RECORD};
use std::env::FillError;
use std::rt::Env;

// The input has one byte more than the longest book, so that a longer one is seen to be longer.
fn main(rt: HostRuntime) {
    if answer_version(&rt, b"plainlist").is_some() {
        return;
    }
    if !matches!(rt.arg(1, &mut []), Err(FillError::NotPresent)) {
        let _ = eprintln!(rt; "usage: plainlist <BOOK");
        return;
    }
    let mut plain = [0u8; PLAIN_RECORD * MOST_RECORDS + 1];
    let Some(n) = read_input(&rt, b"plainlist", &mut plain) else {
        return;
    };
    let mut out = [0u8; LISTING];
    let written = list_plain(&plain[..n], &mut out);
    write_output(&rt, b"plainlist", &out, written);
}
