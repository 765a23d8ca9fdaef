// The printed tables (02, 13): the inverse, made from S, and the running rotations, made from the sequence a.
#![tactic(auto)]

ghost use Rattle.std.specs.Prelude.{[], ◌≡◌, ◌≤◌, length};
ghost use Rattle.standard.specs.Answers.{text_answer};
ghost use Rattle.standard.specs.Hurdle.{S⁻¹};
ghost use Rattle.standard.specs.PrintedTables.{rotations as rotations_of, spaced as spaced_of, table_line, table_lines, tables_call};
ghost use Rattle.lines.specs.LineStates.{◌▸◌, Over};

use hurdle::{A, S};
use lines::Line;
use standard::Refusal;

// The bytes of the text: seventeen lines, each of sixteen entries of two digits with a space or the line's end after it.
pub const TABLES_TEXT: usize = 816;

// Each index goes where S has it. What that makes is the stored inverse.
fn inverse() -> [u8; 256]
    ensures { result ≡ S⁻¹ }
{
    let mut out = [0u8; 256];
    for (i, &y) in S.iter().enumerate() {
        out[usize::from(y)] = i as u8;
    }
    out
}

fn rotations() -> [u8; 16]
    ensures { result ≡ rotations_of }
{
    let mut out = [0u8; 16];
    let mut sum = 0;
    for (i, &turn) in A.iter().enumerate() {
        sum = (sum + turn) % 16;
        out[i] = sum as u8;
    }
    out
}

// Entries, with a space after each.
#[tactic(auto, using(crate::proofs::PrintLaws::spaced_steps))]
fn spaced(t: &[u8]) -> Line
    ensures { result ≡ [] ▸ spaced_of t.now }
{
    let mut l = Line::empty();
    for &x in t {
        l = l.hex_byte(x).word(b" ");
    }
    l
}

fn table_line(t: &[u8; 16]) -> Line
    ensures { result ≡ table_line t.now }
{
    spaced(&t[..15]).hex_byte(t[15]).word(b"\n")
}

// The sixteen lines of a table over the front of the output; their length.
fn table_lines(t: &[u8; 256], out: &mut [u8]) -> usize
    requires { 768 ≤ length out.old }
    ensures { Over (table_lines 16 t.now) out.old result out.new }
{
    let (rows, _) = t.as_chunks();
    let mut at = 0;
    for row in rows {
        at += table_line(row).put(&mut out[at..]);
    }
    at
}

// Both tables into an output that has room for them.
pub fn print_tables(out: &mut [u8]) -> Result<usize, Refusal>
    ensures { (text_answer result, out.new) ≡ tables_call out.old }
{
    if out.len() < TABLES_TEXT {
        return Err(Refusal::OutputShort);
    }
    let at = table_lines(&inverse(), out);
    Ok(at + table_line(&rotations()).put(&mut out[at..]))
}
