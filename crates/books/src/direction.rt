// Sealing or opening, and the bytes of a record that comes in and of one that goes out.
ghost use Rattle.std.specs.Prelude.{◌≡◌};
ghost use Rattle.books.specs.BothDirections.{size_of, output_size_of};

use standard::{PLAIN_RECORD, SEALED_RECORD};

#[derive(Clone, Copy, Debug, PartialEq, Eq)]
pub enum Direction {
    Sealing,
    Opening,
}

impl Direction {
    pub(crate) fn size(self) -> u32
        ensures { result ≡ size_of self }
    {
        match self {
            Direction::Sealing => PLAIN_RECORD as u32,
            Direction::Opening => SEALED_RECORD as u32,
        }
    }

    pub(crate) fn output_size(self) -> u32
        ensures { result ≡ output_size_of self }
    {
        match self {
            Direction::Sealing => SEALED_RECORD as u32,
            Direction::Opening => PLAIN_RECORD as u32,
        }
    }
}
