// A string's bytes and parts. Past its end stand zeros, as in the definitions, so that nothing here asks for a length; where a call does, the
// whole string is taken or refused.
ghost use Rattle.std.specs.Prelude.{◌++◌, ◌≡◌, ◌&&◌, Ok, Err, length, take, drop};
ghost use Rattle.standard.specs.Answers.{exactly};
ghost use Rattle.standard.specs.Bytes.{◌!◌, choose, part};
ghost use Rattle.standard.specs.Refusals.{has_length};
ghost use Rattle.standard.specs.declared.Refusal.TheVariants.{WrongLength};

use standard::Refusal;

// The front of `out` becomes `s`, as far as both go.
pub fn copy(s: &[u8], out: &mut [u8])
    ensures { out.new ≡ take (length out.old) s.now ++ drop (length s.now) out.old }
{
    let n = s.len().min(out.len());
    out[..n].copy_from_slice(&s[..n]);
}

pub fn byte_at(s: &[u8], i: usize) -> u8
    ensures { result ≡ s.now ! i }
{
    s.get(i).copied().unwrap_or(0)
}

// The N bytes of `s` from index `from` on. Where there are so many, N bytes are copied, a number that the compiler knows.
pub fn part<const N: usize>(s: &[u8], from: usize) -> [u8; N]
    ensures { result ≡ part from N s.now }
{
    let mut out = [0u8; N];
    if from < s.len() {
        let rest = &s[from..];
        if let Some(whole) = rest.first_chunk() {
            return *whole;
        }
        copy(rest, &mut out);
    }
    out
}

// The string, if it has N bytes.
pub fn exactly<const N: usize>(s: &[u8]) -> Result<[u8; N], Refusal>
    ensures { result ≡ exactly N s.now }
{
    s.try_into().map_err(|_| Refusal::WrongLength)
}

// Two strings, if both have their lengths.
pub fn both_exactly<const M: usize, const N: usize>(
    a: &[u8],
    b: &[u8],
) -> Result<([u8; M], [u8; N]), Refusal>
    ensures { result ≡ choose (has_length M a.now && has_length N b.now) (Ok (a.now, b.now)) (Err WrongLength) }
{
    Ok((exactly(a)?, exactly(b)?))
}
