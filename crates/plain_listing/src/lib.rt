// The listing of a plain book.
#![tactic(auto)]

ghost use Rattle.std.specs.Prelude.{[], ◌++◌, ◌≡◌, ◌+◌, ◌-◌, ◌*◌, ◌/◌, ◌≤◌, length, take, drop};
ghost use Rattle.standard.specs.Bytes.{◌!◌};
ghost use Rattle.standard.specs.Seals.{key_length};
ghost use Rattle.standard.specs.PlainListing.{number_text, entry_line, entry_lines, entries_line, refused_line, list_call};
ghost use Rattle.standard.specs.Lines.{ascii, decimal, hex};
ghost use Rattle.lines.specs.LineStates.{◌▸◌, Over};

use books::check_plain;
use lines::{Line, ROOM};
use records::kind_at;
use reports::refused_at;
use standard::{Algorithm, Kind, MOST_RECORDS, PLAIN_RECORD, RefusedAt, pair};

// Room for every listing: a line for each of 1,024 records, and the last one.
pub const LISTING: usize = (MOST_RECORDS + 1) * ROOM;

// The line of plain record p as far as the version.
fn front(index: usize, p: &[u8; PLAIN_RECORD]) -> Line
    ensures { result
        ≡ [] ▸ ascii "entry " ▸ decimal index ▸ ascii " kind " ▸ decimal (p.now ! 0)
        ▸ ascii " identity " ▸ hex (take 3 (drop 1 p.now))
        ▸ ascii " version " ▸ decimal (256 * p.now ! 4 + p.now ! 5) }
{
    let kind = u64::from(p[0]);
    let version = u64::from(pair(p[4], p[5]));
    Line::empty()
        .word(b"entry ")
        .decimal(index as u64)
        .word(b" kind ")
        .decimal(kind)
        .word(b" identity ")
        .hex(&p[1..4])
        .word(b" version ")
        .decimal(version)
}

// The key number; kinds 1 and 4 have none.
fn number(l: Line, algorithm: Algorithm, p: &[u8; PLAIN_RECORD]) -> Line
    ensures { result ≡ l ▸ number_text algorithm p.now }
{
    match algorithm {
        Algorithm::Ta31 => l.word(b"-"),
        Algorithm::Ta51 => l.decimal(u64::from(p[17])),
        Algorithm::Ta81 => l.decimal(u64::from(pair(p[16], p[17]))),
        Algorithm::Ta91 => l.word(b"-"),
    }
}

// The rest of the line.
fn back(l: Line, kind: Kind, p: &[u8; PLAIN_RECORD]) -> Line
    ensures { result
        ≡ l ▸ ascii " key " ▸ hex (take (6 + key_length kind.algorithm - 6) (drop 6 p.now))
        ▸ ascii " number " ▸ number_text kind.algorithm p.now ▸ ascii "\n" }
{
    let end = 6 + kind.key_length();
    let key = l.word(b" key ").hex(&p[6..end]);
    number(key.word(b" number "), kind.algorithm, p).word(b"\n")
}

// The line of plain record p.
fn entry_line(index: usize, p: &[u8; PLAIN_RECORD]) -> Line
    ensures { result ≡ entry_line index p.now }
{
    back(front(index, p), kind_at(p), p)
}

#[tactic(auto, using(crate::proofs::ListLaws::line_steps), unfolding(standard::specs::PlainListing::entries_line))]
fn entries_line(n: usize) -> Line
    ensures { result ≡ entries_line n }
{
    Line::empty()
        .word(b"entries ")
        .decimal(n as u64)
        .word(b"\n")
}

#[tactic(auto, using(crate::proofs::ListLaws::line_steps), unfolding(standard::specs::PlainListing::refused_line))]
fn refused_line(refusal: u32, index: usize) -> Line
    ensures { result ≡ refused_line refusal index }
{
    refused_at(refusal, index).word(b"\n")
}

// The lines of the records, each from its own part of the book, over the front of the output; their length.
fn entry_lines(plain: &[u8], out: &mut [u8; LISTING]) -> usize
    requires { length plain.now / 18 ≤ 1024 }
    ensures { Over (entry_lines (length plain.now / 18) plain.now) out.old result out.new }
{
    let (records, _) = plain.as_chunks();
    let mut at = 0;
    for (i, p) in records.iter().enumerate() {
        at += entry_line(i, p).put(&mut out[at..]);
    }
    at
}

// The lines of an accepted book's records, and the last line after them; their length.
fn list_entries(plain: &[u8], out: &mut [u8; LISTING]) -> usize
    requires { length plain.now / 18 ≤ 1024 }
    ensures { Over (entry_lines (length plain.now / 18) plain.now ++ entries_line (length plain.now / 18)) out.old result out.new }
{
    let n = plain.len() / PLAIN_RECORD;
    let at = entry_lines(plain, out);
    at + entries_line(n).put(&mut out[at..])
}

// The listing of a plain book over the front of an output that has room for every listing; its length.
pub fn list_plain(plain: &[u8], out: &mut [u8; LISTING]) -> usize
    ensures { (result, out.new) ≡ list_call plain.now out.old }
{
    match check_plain(plain) {
        Ok(_) => list_entries(plain, out),
        Err(RefusedAt { refusal, index }) => refused_line(refusal.into(), index).put(out),
    }
}
