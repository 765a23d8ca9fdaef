// The core of a sealed text: BL1, without its eighth byte, seals; BL2 opens. For one text, and for four whose cores run side by side.
ghost use Rattle.std.specs.Prelude.{◌≡◌};
ghost use Rattle.cores.specs.CoreOutputs.{counted};
ghost use Rattle.standard.specs.Seals.{with8 as with8_of, opened as opened_of};
ghost use Rattle.hurdle.specs.Lanes.{lanes, lane};
ghost use Rattle.texts.specs.TextCores.{shortened, seal_core};

use arrays::{join, part};
use cores::{CoreOutput, bl1, bl2};
use cores_x4::bl1_x4;

// BL1's output without its eighth byte: the sealed text.
fn without8(o: CoreOutput<16>) -> CoreOutput<15>
    ensures { result ≡ shortened o }
{
    let x = o.output;
    CoreOutput {
        output: join(part::<7>(&x, 0), part::<8>(&x, 8)),
        runs: o.runs,
    }
}

// A sealed text with a zero byte in the eighth place, as BL2 takes it.
pub fn with8(t: [u8; 15]) -> [u8; 16]
    ensures { result ≡ with8_of t }
{
    let mut y = [0; 16];
    y[..7].copy_from_slice(&t[..7]);
    y[8..].copy_from_slice(&t[7..]);
    y
}

pub fn seal_core(key: [u8; 16], input: [u8; 16]) -> CoreOutput<15>
    ensures { result ≡ counted (seal_core key input) }
{
    without8(bl1(key, input))
}

// What a sealed text opens to, before the body is taken out of it.
#[tactic(auto, unfolding(standard::specs::Seals::opened))]
pub(crate) fn open_core(key: [u8; 16], text: [u8; 15]) -> CoreOutput<15>
    ensures { result ≡ counted (opened_of key text) }
{
    bl2(key, with8(text))
}

pub fn seal_core_x4(keys: [[u8; 16]; 4], inputs: [[u8; 16]; 4]) -> [CoreOutput<15>; 4]
    ensures { result ≡ lanes (λ j. counted (seal_core (lane keys j) (lane inputs j))) }
{
    bl1_x4(keys, inputs).map(without8)
}
