// makering [SITTING]: makes the ring and both responses of a sitting, from a file or from standard input.
#![tactic(auto)]

ghost use Rattle.programs.specs.Reading.{Read};

use keys::sitting_ring;
use programs::{answer_version, read_argument, read_input, report_answer, write_output};
use standard::{RING, RefusedAt, RingAndResponses, SITTING, Written};
use std::env::FillError;
use std::rt::Env;

fn read_sitting(rt: &HostRuntime, buf: &mut [u8]) -> Option<usize>
    ensures { Read result buf.old buf.new }
{
    if !matches!(rt.arg(2, &mut []), Err(FillError::NotPresent)) {
        let _ = eprintln!(rt; "usage: makering [SITTING]");
        return None;
    }
    if !matches!(rt.arg(1, &mut []), Err(FillError::NotPresent)) {
        return read_argument(rt, b"makering", buf);
    }
    read_input(rt, b"makering", buf)
}

fn write_made(rt: &HostRuntime, made: RingAndResponses) -> bool {
    let ring = made.ring;
    let response1 = made.response1;
    let response2 = made.response2;
    write_output(rt, b"makering", &ring, RING)
        && write_output(rt, b"makering", &response1, 4)
        && write_output(rt, b"makering", &response2, 4)
}

// One byte more than a sitting, so that a longer file is seen to be longer.
fn main(rt: HostRuntime) {
    if answer_version(&rt, b"makering").is_some() {
        return;
    }
    let mut sitting = [0u8; SITTING + 1];
    let Some(n) = read_sitting(&rt, &mut sitting) else {
        return;
    };
    if n != SITTING {
        let _ = eprintln!(rt; "makering: the sitting does not have 83 bytes");
        return;
    }
    let answer: Result<Written, RefusedAt> = match sitting_ring(&sitting[..n]) {
        Ok(made) => {
            if !write_made(&rt, made) {
                return;
            }
            Ok(Written {
                records: 0,
                bytes: RING + 8,
            })
        }
        Err(refusal) => Err(refusal.into()),
    };
    report_answer(&rt, answer.into());
}
