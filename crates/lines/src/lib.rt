// Text in the making: fixed words and numbers, put together in a line, and a line written into an output.
#![tactic(auto)]

ghost use Rattle.std.specs.Prelude.{[], ◌∷◌, ◌≡◌, ◌≤◌, length, take};
ghost use Rattle.standard.specs.Answers.{text_answer};
ghost use Rattle.standard.specs.Lines.{digits as digits_of, decimal as decimal_of, hex_digit, hex_byte, hex as hex_of, text_call};
ghost use Rattle.lines.specs.LineStates.{◌▸◌, put_call};

use arrays::copy;
use standard::Refusal;
use std::marker::Model;

// The most bytes of a line.
pub const ROOM: usize = 160;

// A line of text. What goes beyond its room is left out.
#[derive(Clone, Copy)]
pub struct Line {
    bytes: [u8; ROOM],
    len: usize,
}

// A contract sees the text, which is all that a line has: the bytes after it are zeros.
impl Model for Line {
    ghost use Rattle.std.specs.Prelude.{◌++◌, List, length, take, ℕ};
    ghost use Rattle.lines.specs.LineStates.{IsPadded, padding, padded_whole};

    ghost Value = { List ℕ };

    ghost view = { λ l. take l.len l.bytes };

    ghost invariant = { λ l. IsPadded l.len l.bytes };

    ghost inverse = { λ text. record { bytes = text ++ padding (length text); len = length text } };

    ghost inverse_ok = { λ l h. padded_whole (λ bytes len. record { bytes = bytes; len = len }) l.len l.bytes h };
}

// Digits are written by hand, not by a format: the edits capital_digits, low_digit_first and digit_left_out change these steps.
#[tactic(auto, unfolding(standard::specs::Lines::hex_digit))]
fn hex_digit(d: u8) -> u8
    requires { d ≤ 15 }
    ensures { result ≡ hex_digit d }
{
    if d < 10 { b'0' + d } else { b'a' - 10 + d }
}

impl Line {
    pub fn empty() -> Line
        ensures { result ≡ [] }
    {
        Line {
            bytes: [0; ROOM],
            len: 0,
        }
    }

    // Of any bytes as many as are said, as far as a line has room. Nothing else about them is asked.
    #[tactic(auto, using(crate::proofs::LineLaws::front_whole))]
    pub fn of(bytes: &[u8; ROOM], len: usize) -> Line
        ensures { result ≡ take len bytes.now }
    {
        Line::empty().word(&bytes[..len.min(ROOM)])
    }

    // The length of its text.
    pub fn size(&self) -> usize
        ensures { result ≡ length self.now }
    {
        self.text().len()
    }

    // The text, lent.
    pub fn text(&self) -> &[u8]
        ensures { result.now ≡ self.now }
    {
        &self.bytes[..self.len]
    }

    #[tactic(auto, using(crate::proofs::LineLaws::written_text))]
    pub fn word(self, w: &[u8]) -> Line
        ensures { result ≡ self ▸ w.now }
    {
        let mut bytes = self.bytes;
        copy(w, &mut bytes[self.len..]);
        Line {
            bytes,
            len: (self.len + w.len()).min(ROOM),
        }
    }

    // A number that has at most `places` digits.
    #[tactic(auto, using(crate::proofs::LineLaws::digits_steps))]
    fn digits(self, places: usize, x: u64) -> Line
        ensures { result ≡ self ▸ digits_of places x }
    {
        if places == 0 {
            return self;
        }
        let last = b'0' + (x % 10) as u8;
        if x < 10 {
            return self.word(&[last]);
        }
        self.digits(places - 1, x / 10).word(&[last])
    }

    pub fn decimal(self, x: u64) -> Line
        ensures { result ≡ self ▸ decimal_of x }
    {
        self.digits(20, x)
    }

    pub fn hex_byte(self, b: u8) -> Line
        ensures { result ≡ self ▸ hex_byte b }
    {
        self.word(&[hex_digit(b / 16), hex_digit(b % 16)])
    }

    #[tactic(auto, using(crate::proofs::LineLaws::hex_steps))]
    pub fn hex(self, s: &[u8]) -> Line
        ensures { result ≡ self ▸ hex_of s.now }
    {
        let mut r = self;
        for &b in s {
            r = r.hex_byte(b);
        }
        r
    }

    // The text over the front of an output, as far as both go; how long it is.
    pub fn put(&self, out: &mut [u8]) -> usize
        ensures { (result, out.new) ≡ put_call self.now out.old }
    {
        let text = self.text();
        copy(text, out);
        text.len()
    }

    // The text into an output that has room for it.
    #[tactic(auto, unfolding(standard::specs::Lines::text_call))]
    pub fn write(self, out: &mut [u8]) -> Result<usize, Refusal>
        ensures { (text_answer result, out.new) ≡ text_call self out.old }
    {
        if out.len() < self.size() {
            return Err(Refusal::OutputShort);
        }
        Ok(self.put(out))
    }
}
