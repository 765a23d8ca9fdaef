// The bytes of a ring, as far as they were read: the front of an array, since there is no heap.
ghost use Rattle.std.specs.Prelude.{◌≡◌, ◌≤◌, take};

use standard::RingBytes;

#[derive(Clone, Copy)]
pub struct RingInput {
    pub ring: RingBytes,
    pub len: usize,
    ghost within: { len ≤ 52 },
}

impl RingInput {
    // As many as were read.
    pub fn bytes(&self) -> &[u8]
        ensures { result.now ≡ take self.now.len self.now.ring }
    {
        &self.ring[..self.len]
    }
}
