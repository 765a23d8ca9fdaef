// The ⊕ of two strings.
ghost use Rattle.std.specs.Prelude.{◌≡◌};
ghost use Rattle.standard.specs.Bytes.{xors};

pub fn xor<const N: usize>(a: [u8; N], b: [u8; N]) -> [u8; N]
    ensures { result ≡ xors N a.entry b.entry }
{
    let mut out = [0u8; N];
    for i in 0..N {
        out[i] = a[i] ^ b[i];
    }
    out
}
