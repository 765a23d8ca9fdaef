// Runs the edges (01, Edges to run) through the libraries, and writes each answer on a line.
#![tactic(auto)]

use books::{open_book, seal_book};
use mixing::tb1;
use seals::ta51;
use standard::{
    CountedAnswer, CountedRefusal, CountedWritten, KeyNumber, RING, Refusal, RingBytes, Version,
};

const KEYS: RingBytes = [90; RING];

// A book call's refusal, index, bytes written and cipher runs.
fn book(rt: &impl Print, words: &str, given: Result<CountedWritten, CountedRefusal>) {
    let CountedAnswer {
        refusal,
        index,
        written,
        runs,
    } = given.into();
    let _ = println!(rt; "{words} {refusal} {index} {written} {runs}");
}

// A single call's refusal, and the number on which it turns.
fn single<T: Copy>(rt: &impl Print, words: &str, number: u64, given: Result<T, Refusal>) {
    let refusal = given.err().map_or(0, u32::from);
    let _ = println!(rt; "{words} {number} {refusal}");
}

// Records of kind 4, each byte of a body by its place.
fn fill(book: &mut [u8]) {
    for (i, byte) in book.iter_mut().enumerate() {
        *byte = if i % 18 == 0 { 4 } else { (i % 251) as u8 };
    }
}

fn longest(rt: &impl Print) {
    let mut plain = [0u8; 18432];
    let mut sealed = [0u8; 21504];
    let mut again = [0u8; 18432];
    fill(&mut plain);
    book(
        rt,
        "seal 1024 records",
        seal_book(&KEYS, &plain, &mut sealed),
    );
    book(
        rt,
        "open 1024 records",
        open_book(&KEYS, &sealed, &mut again),
    );
    if plain == again {
        let _ = println!(rt; "the same book");
    }
}

fn too_long(rt: &impl Print) {
    let mut plain = [0u8; 18450];
    let mut sealed = [0u8; 21525];
    fill(&mut plain);
    book(
        rt,
        "seal 1025 records",
        seal_book(&KEYS, &plain, &mut sealed),
    );
    book(
        rt,
        "open 1025 records",
        open_book(&KEYS, &sealed, &mut plain),
    );
}

fn no_records(rt: &impl Print) {
    let mut out = [0u8; 1];
    book(rt, "seal no records", seal_book(&KEYS, &[], &mut out));
    book(rt, "open no records", open_book(&KEYS, &[], &mut out));
}

fn numbers(rt: &impl Print) {
    let mut sealed = [0u8; 21];
    let mut again = [0u8; 18];
    let mut rec = [0u8; 18];
    rec[0] = 2;
    rec[17] = 31;
    book(rt, "seal number 31", seal_book(&KEYS, &rec, &mut sealed));
    book(rt, "open number 31", open_book(&KEYS, &sealed, &mut again));
    sealed[20] ^= 1;
    book(
        rt,
        "open a flipped bit",
        open_book(&KEYS, &sealed, &mut again),
    );
    rec[17] = 32;
    book(rt, "seal number 32", seal_book(&KEYS, &rec, &mut sealed));
}

fn single_numbers(rt: &impl Print) {
    for number in [31, 32] {
        let text = ta51(&[1; 10], Version(7), &[2; 16], KeyNumber(number));
        single(rt, "TA51 number", u64::from(number), text);
    }
}

fn widths(rt: &impl Print) {
    for width in [15, 16, 32, 33] {
        single(rt, "TB1 width", width, tb1(1, width));
    }
}

fn main(rt: HostRuntime) {
    longest(&rt);
    too_long(&rt);
    no_records(&rt);
    numbers(&rt);
    single_numbers(&rt);
    widths(&rt);
}
