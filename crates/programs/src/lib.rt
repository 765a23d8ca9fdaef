// What the programs share: input read to its end, output written, and a line on standard error that says what went wrong.
#![tactic(auto)]

mod ring_input;

ghost use Rattle.std.specs.Prelude.{true, [], ◌≡◌, ◌≤◌, eqb, length, min, take, None, Some, MatchOption, IfOk, IfSome, OnOk};
ghost use Rattle.std.specs.Io.{StartsWith};
ghost use Rattle.std.specs.Io.KnownBytes.{Appends, ReadConsumes};
ghost use Rattle.standard.specs.Bytes.{same as same_of};
ghost use Rattle.standard.specs.Lines.{ascii};
ghost use Rattle.lines.specs.LineStates.{◌▸◌};
ghost use Rattle.standard.specs.Sizes.{ring_size};
ghost use Rattle.programs.specs.Reading.{counted, Gathered, Read, RingRead, ReadToEnd};

use arrays::{copy, same};
use lines::{Line, ROOM};
use reports::{report, report_counted};
pub use ring_input::RingInput;
use standard::{BookAnswer, CountedAnswer, MOST_RECORDS, RING, RingBytes, SEALED_RECORD};
use std::env::FillError;
use std::fmt::InlineText;
use std::fs::File;
use std::io;
use std::io::{ErrorKind, Write};
use std::rt::Env;

// The longest input that a program has room for: a byte more than the longest sealed book.
const LONGEST: usize = SEALED_RECORD * MOST_RECORDS + 1;

// The bytes of a piece of input, and those of an argument. Linux takes no longer path.
const PIECE: usize = 4096;

// The system's numbers for an argument that is missing, one that is too long, and a path that is not in UTF-8.
const EINVAL: i32 = 22;

const ENAMETOOLONG: i32 = 36;

const EILSEQ: i32 = 84;

// The most bytes of an error's text.
const ERROR_TEXT: usize = 320;

// One piece of the input, by way of an array of its own, so that the bytes after it stay as they are.
fn read_piece<R: io::Read>(from: &mut R, buf: &mut [u8]) -> io::Result<usize>
    ensures left { Read (counted result) buf.old buf.new }
    ensures known { ReadConsumes (R.remaining from.old) (R.remaining from.new) result buf.new }
{
    let mut bytes = [0u8; PIECE];
    let most = buf.len().min(bytes.len());
    let n = from.read(&mut bytes[..most])?;
    copy(&bytes[..n], buf);
    Ok(n)
}

// Input that comes in pieces is read until it ends or the buffer is full. No `read_to_end`: it asks for a heap, and goes on after an interrupt.
fn read_all<R: io::Read>(from: &mut R, buf: &mut [u8]) -> io::Result<usize>
    ensures left { Gathered (counted result) buf.old buf.new }
    ensures known { IfOk result (ReadToEnd (R.remaining from.old) (R.remaining from.new) (length buf.new) buf.new) }
{
    let mut n = 0;
    while n < buf.len() {
        let m = read_piece(from, &mut buf[n..])?;
        if m == 0 {
            return Ok(n);
        }
        n += m;
    }
    Ok(n)
}

// The same by way of an array of the longest input, copied once at the end: where a read fails, the pieces before it do not reach the buffer.
// Not one function with `read_piece` and a closure for the read: its contract would have to say what the closure left of the reader's bytes.
fn read_whole<R: io::Read>(from: &mut R, buf: &mut [u8]) -> io::Result<usize>
    ensures left { Read (counted result) buf.old buf.new }
    ensures known { IfOk result (ReadToEnd (R.remaining from.old) (R.remaining from.new) (min (length buf.new) LONGEST) buf.new) }
{
    let mut all = [0u8; LONGEST];
    let most = buf.len().min(all.len());
    let n = read_all(from, &mut all[..most])?;
    copy(&all[..n], buf);
    Ok(n)
}

// All the bytes, or the reason why not. No `write_all`: it goes on after an interrupt, and has other words for a write that takes none.
fn write_whole<W: Write>(to: &mut W, bytes: &[u8]) -> io::Result<()>
    ensures { OnOk result (Appends (W.contents to.old) (W.contents to.new) bytes.now) }
{
    let mut done = 0;
    while done < bytes.len() {
        let n = to.write(&bytes[done..])?;
        if n == 0 {
            return Err(io::Error::from(ErrorKind::WriteZero));
        }
        done += n;
    }
    Ok(())
}

// The first n bytes, or the reason why not. `Ok` only where there are so many.
fn put<W: Write>(to: &mut W, bytes: &[u8], n: usize) -> io::Result<()>
    ensures within { OnOk result (n ≤ length bytes.now) }
    ensures written { OnOk result (Appends (W.contents to.old) (W.contents to.new) (take n bytes.now)) }
{
    if n > bytes.len() {
        return Err(io::Error::from(ErrorKind::InvalidInput));
    }
    write_whole(to, &bytes[..n])
}

// Words to standard error. If they cannot be written, there is no place left to say so.
fn write_error(rt: &HostRuntime, words: &[u8]) {
    let _ = write_whole(&mut rt.stderr(), words);
}

// An error's text without its number.
fn reason(text: &str) -> &str
    ensures { StartsWith text.now result.now }
{
    match text.rsplit_once(" (os error ") {
        Some((words, _)) => words,
        None => text,
    }
}

// Program, what it could not do, and the system's reason.
fn fail(rt: &HostRuntime, program: &[u8], what: &[u8], error: io::Error) {
    let text = InlineText::<ERROR_TEXT>::of(error);
    write_error(rt, program);
    write_error(rt, b": ");
    write_error(rt, what);
    write_error(rt, b": ");
    write_error(rt, reason(text.as_str()).as_bytes());
    write_error(rt, b"\n");
}

// What came of it. Where it failed, a line on standard error says why.
fn told<T>(rt: &HostRuntime, program: &[u8], what: &[u8], outcome: io::Result<T>) -> Option<T>
    ensures { result ≡ counted outcome }
{
    match outcome {
        Ok(value) => Some(value),
        Err(error) => {
            fail(rt, program, what, error);
            None
        }
    }
}

// How many bytes were read. None: reading failed, and a line on standard error says why.
pub fn read_input(rt: &HostRuntime, program: &[u8], buf: &mut [u8]) -> Option<usize>
    ensures { Read result buf.old buf.new }
{
    let read = read_whole(&mut rt.stdin(), buf);
    told(rt, program, b"standard input", read)
}

fn open(rt: &HostRuntime, path: &[u8]) -> io::Result<File> {
    let text = str::from_utf8(path).map_err(|_| io::Error::from_raw_os_error(EILSEQ))?;
    File::open(rt, text)
}

fn read_path(rt: &HostRuntime, path: &[u8], buf: &mut [u8]) -> io::Result<usize>
    ensures { Read (counted result) buf.old buf.new }
{
    let mut file = open(rt, path)?;
    read_whole(&mut file, buf)
}

fn read_file(rt: &HostRuntime, program: &[u8], path: &[u8], buf: &mut [u8]) -> Option<usize>
    ensures { Read result buf.old buf.new }
{
    let read = read_path(rt, path, buf);
    told(rt, program, path, read)
}

// Argument i, where it is there and fits. The program's own name is argument 0.
fn argument(rt: &HostRuntime, i: usize, buf: &mut [u8]) -> io::Result<usize>
    ensures { IfOk result (λ n. n ≤ length buf.new) }
{
    rt.arg(i, buf).map_err(|error| {
        io::Error::from_raw_os_error(match error {
            FillError::TooLong => ENAMETOOLONG,
            FillError::NotPresent => EINVAL,
        })
    })
}

// The file that the first argument names.
pub fn read_argument(rt: &HostRuntime, program: &[u8], buf: &mut [u8]) -> Option<usize>
    ensures { Read result buf.old buf.new }
{
    let mut path = [0u8; PIECE];
    let found = argument(rt, 1, &mut path);
    let n = told(rt, program, b"first argument", found)?;
    read_file(rt, program, &path[..n], buf)
}

// Whether there is an argument i, however long. The program's own name is argument 0.
fn has_argument(rt: &HostRuntime, i: usize) -> bool {
    !matches!(rt.arg(i, &mut []), Err(FillError::NotPresent))
}

fn has_one_argument(rt: &HostRuntime) -> bool {
    has_argument(rt, 1) && !has_argument(rt, 2)
}

fn usage(program: &[u8]) -> Line {
    Line::empty()
        .word(b"usage: ")
        .word(program)
        .word(b" RING\n")
}

// A ring counts as far as it was read.
fn ring_read(ring: RingBytes, read: Option<usize>) -> Option<RingInput>
    requires { IfSome read (λ n. n ≤ ring_size) }
    ensures { MatchOption result (read ≡ None) (λ r. (r.ring ≡ ring) × (read ≡ Some r.len)) }
{
    let len = read?;
    Some(RingInput { ring, len })
}

// The ring, from the first bytes of the file that the only argument names. A shorter file is left to the calls, which refuse it.
pub fn read_ring(rt: &HostRuntime, program: &[u8]) -> Option<RingInput>
    ensures { RingRead result }
{
    let mut ring = [0u8; RING];
    if !has_one_argument(rt) {
        write_error(rt, usage(program).text());
        return None;
    }
    let read = read_argument(rt, program, &mut ring);
    ring_read(ring, read)
}

// The first n bytes to standard output. True only where there are so many, and all were taken.
pub fn write_output(rt: &HostRuntime, program: &[u8], bytes: &[u8], n: usize) -> bool
    ensures { result ≡ true → n ≤ length bytes.now }
{
    let written = put(&mut rt.stdout(), bytes, n);
    told(rt, program, b"standard output", written).is_some()
}

// The first n bytes of a line about an answer, on standard error. Whether there was no refusal.
fn report_line(rt: &HostRuntime, refusal: u32, line: &[u8], n: usize) -> bool
    ensures { result ≡ eqb refusal 0 }
{
    let _ = put(&mut rt.stderr(), line, n);
    refusal == 0
}

// The line about an answer, on standard error. Whether it is no refusal.
pub fn report_answer(rt: &HostRuntime, answer: BookAnswer) -> bool
    ensures { result ≡ eqb answer.refusal 0 }
{
    let mut line = [0u8; ROOM];
    let n = report(answer, &mut line).unwrap_or(0);
    report_line(rt, answer.refusal, &line, n)
}

// The same for sealing and opening a book, with the block cipher runs.
pub fn report_counted_answer(rt: &HostRuntime, answer: CountedAnswer) -> bool
    ensures { result ≡ eqb answer.refusal 0 }
{
    let mut line = [0u8; ROOM];
    let n = report_counted(answer, &mut line).unwrap_or(0);
    report_line(rt, answer.refusal, &line, n)
}

// The program's name and the release.
fn version_line(program: &[u8]) -> Line
    ensures { result ≡ [] ▸ program.now ▸ ascii " 1.1.0\n" }
{
    Line::empty().word(program).word(b" 1.1.0\n")
}

fn is_version(argument: &[u8]) -> bool
    ensures { result ≡ same_of argument.now (ascii "--version") }
{
    same(argument, b"--version")
}

// Whether `--version` is the only argument.
fn version_asked(rt: &HostRuntime) -> bool {
    if !has_one_argument(rt) {
        return false;
    }
    let mut bytes = [0u8; PIECE];
    argument(rt, 1, &mut bytes).is_ok_and(|n| is_version(&bytes[..n]))
}

// What was written about the release, on standard output: a line if `--version` is the only argument, else nothing.
pub fn answer_version(rt: &HostRuntime, program: &[u8]) -> Option<Line>
    ensures { IfSome result (λ line. line ≡ [] ▸ program.now ▸ ascii " 1.1.0\n") }
{
    if !version_asked(rt) {
        return None;
    }
    let line = version_line(program);
    let text = line.text();
    write_output(rt, program, text, text.len());
    Some(line)
}
