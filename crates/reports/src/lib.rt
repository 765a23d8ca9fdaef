// The line about an answer: the bytes written, or the refusal with its meaning; and the block cipher runs, if they are counted.
#![tactic(auto)]

ghost use Rattle.std.specs.Prelude.{[], ◌≡◌};
ghost use Rattle.standard.specs.Answers.{text_answer};
ghost use Rattle.standard.specs.PlainListing.{refused_at};
ghost use Rattle.standard.specs.Programs.{meaning, meaning_text, wrote_text, answer_text};
ghost use Rattle.standard.specs.Programs.{answer_line, counted_line, report_call, counted_report_call};
ghost use Rattle.lines.specs.LineStates.{◌▸◌};

use lines::Line;
use standard::{BookAnswer, CountedAnswer, Refusal};

// The words of a refusal without its meaning. It is a number, as in BookAnswer: `report` promises a line also for a number that no refusal has.
pub fn refused_at(refusal: u32, index: usize) -> Line
    ensures { result ≡ [] ▸ refused_at refusal index }
{
    Line::empty()
        .word(b"refused ")
        .decimal(u64::from(refusal))
        .word(b" at ")
        .decimal(index as u64)
}

// What a refusal's number means: those of 01, and those that the requests of 02 added.
#[tactic(auto, unfolding(standard::specs::Programs::meaning))]
fn meaning(refusal: u32) -> &'static [u8]
    ensures { result.now ≡ meaning refusal }
{
    match refusal {
        1 => b"book longer than 1,024 records",
        2 => b"book not a whole number of records",
        3 => b"kind not 1 to 6",
        4 => b"body byte not zero",
        5 => b"kind 2 or 5 number above 31",
        6 => b"flag set while opening a book",
        7 => b"mask with a wrong number of ones",
        8 => b"masks that share a bit",
        9 => b"width not 16 to 32",
        10 => b"value too wide for its field",
        11 => b"input of a wrong length",
        12 => b"output shorter than the result",
        13 => b"number of sides not 1 to 3",
        14 => b"operation above 5 or wrong filling",
        15 => b"parent not before its record",
        16 => b"parent of a wrong length",
        17 => b"no input gives this result",
        18 => b"two unreadable bytes in one group",
        19 => b"readable group that disagrees",
        _ => b"not in the list",
    }
}

#[tactic(auto, using(lines::proofs::LineLaws::text_steps), unfolding(standard::specs::Programs::meaning_text))]
fn meaning_text(refusal: u32, index: usize) -> Line
    ensures { result ≡ [] ▸ meaning_text refusal index }
{
    refused_at(refusal, index)
        .word(b" (")
        .word(meaning(refusal))
        .word(b")")
}

#[tactic(auto, using(lines::proofs::LineLaws::text_steps), unfolding(standard::specs::Programs::wrote_text))]
fn wrote_text(n: usize) -> Line
    ensures { result ≡ [] ▸ wrote_text n }
{
    Line::empty()
        .word(b"wrote ")
        .decimal(n as u64)
        .word(b" bytes")
}

#[tactic(auto, unfolding(standard::specs::Programs::answer_text))]
fn answer_text(refusal: u32, index: usize, written: usize) -> Line
    ensures { result ≡ [] ▸ answer_text refusal index written }
{
    if refusal == 0 {
        wrote_text(written)
    } else {
        meaning_text(refusal, index)
    }
}

#[tactic(auto, using(crate::proofs::ReportLaws::line_steps), unfolding(standard::specs::Programs::answer_line))]
fn answer_line(answer: BookAnswer) -> Line
    ensures { result ≡ answer_line answer }
{
    answer_text(answer.refusal, answer.index, answer.written).word(b"\n")
}

#[tactic(auto, using(crate::proofs::ReportLaws::line_steps), unfolding(standard::specs::Programs::counted_line))]
fn counted_line(answer: CountedAnswer) -> Line
    ensures { result ≡ counted_line answer }
{
    answer_text(answer.refusal, answer.index, answer.written)
        .word(b", ")
        .decimal(answer.runs as u64)
        .word(b" runs\n")
}

// The line into the output; 12 if the output is shorter.
pub fn report(answer: BookAnswer, out: &mut [u8]) -> Result<usize, Refusal>
    ensures { (text_answer result, out.new) ≡ report_call answer out.old }
{
    answer_line(answer).write(out)
}

pub fn report_counted(answer: CountedAnswer, out: &mut [u8]) -> Result<usize, Refusal>
    ensures { (text_answer result, out.new) ≡ counted_report_call answer out.old }
{
    counted_line(answer).write(out)
}
