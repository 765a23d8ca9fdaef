// The keys of a ring, and the head of a record.
ghost use Rattle.std.specs.Prelude.{◌∷◌, ◌++◌, ◌≡◌};
ghost use Rattle.standard.specs.Books.{ring_key, sealing_key, common_key};
ghost use Rattle.standard.specs.Bytes.{◌!◌, part, bytes_of};
ghost use Rattle.standard.specs.Seals.{form};

use arrays::part;
use standard::{Algorithm, Kind, RingBytes, RingKey, Version};
use texts::{key10, key16};

// The common key C.
pub(crate) fn ring_c(r: &RingBytes) -> [u8; 10]
    ensures { result ≡ common_key r.now }
{
    part(r, 26)
}

// The sealing keys D, O and G.
fn ring_key(under: RingKey, r: &RingBytes) -> &[u8]
    ensures { result.now ≡ ring_key under r.now }
{
    match under {
        RingKey::D => &r[..10],
        RingKey::O => &r[10..26],
        RingKey::G => &r[36..],
    }
}

fn version_of(rec: &[u8]) -> Version
    ensures { bytes_of 2 result.0 ≡ part 4 2 rec.now }
{
    Version(u16::from_be_bytes(part(rec, 4)))
}

// The core's key for a record of a kind, from the ring's sealing key for it.
#[tactic(auto, unfolding(standard::specs::Seals::key10, standard::specs::Seals::key16))]
pub fn core_key(kind: Kind, ring: &RingBytes, rec: &[u8]) -> [u8; 16]
    ensures { result ≡ (form kind).key (sealing_key kind ring.now) (part 4 2 rec.now) }
{
    let key = ring_key(kind.under, ring);
    let version = version_of(rec);
    match kind.algorithm {
        Algorithm::Ta31 => key10(part(key, 0), version),
        Algorithm::Ta51 | Algorithm::Ta81 | Algorithm::Ta91 => key16(part(key, 0), version),
    }
}

// A record's first six bytes, kind, identity and version, with another identity.
pub(crate) fn head_with(rec: &[u8], x: [u8; 3]) -> [u8; 6]
    ensures { result ≡ rec.now ! 0 ∷ part 0 3 x ++ part 4 2 rec.now }
{
    let [kind, _, _, _, high, low]: [u8; 6] = part(rec, 0);
    [kind, x[0], x[1], x[2], high, low]
}
