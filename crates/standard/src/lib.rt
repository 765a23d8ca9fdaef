// What the calls take and give. A call of the libraries gives a value, or a refusal; C has both in one struct, whose first field is 0 or the
// refusal's number, and all its other fields zeros if it is refused, but for a book's index and a refused opening's runs. `answers` makes
// each such struct.
#![tactic(auto)]

mod answers;

ghost use Rattle.std.specs.Prelude.{[], ◌∷◌, ◌≡◌, ◌+◌, ◌*◌};
ghost use Rattle.standard.specs.Bytes.{bytes_of};
ghost use Rattle.standard.specs.Seals.{kind, kind_of, key_length, highest_number};

// Sizes in bytes: a ring, a plain and a sealed record, a sitting's file, a challenge and what TA12 answers to it, a record and
// a value of a lineage sheet; and the most records of a list.
pub const RING: usize = 52;

pub const PLAIN_RECORD: usize = 18;

pub const SEALED_RECORD: usize = 21;

pub const SITTING: usize = 83;

pub const CHALLENGE: usize = 10;

pub const AUTHENTICATION: usize = 14;

pub const SHEET_RECORD: usize = 22;

pub const SHEET_VALUE: usize = 16;

// A key and a block, for the diffusion tally.
pub const DIFFUSION_RECORD: usize = 24;

pub const MOST_RECORDS: usize = 1024;

// Block cipher runs: of sealing or unsealing a text, and of making the identity strings of a ring.
pub const TEXT_RUNS: usize = 2;

pub const IDENTITY_RUNS: usize = 1;

// The refusals. Each has the number that specs/Refusals gives it; who causes which stands there.
#[derive(Clone, Copy, Debug, PartialEq, Eq)]
pub enum Refusal {
    BookTooLong,
    BookNotWhole,
    WrongKind,
    NotZero,
    WrongNumber,
    FlagSet,
    WrongMask,
    SharedBit,
    WrongWidth,
    ValueWide,
    WrongLength,
    OutputShort,
    WrongSides,
    WrongFilling,
    WrongParent,
    ParentLength,
    NoInput,
    GroupUnreadable,
    GroupDisagrees,
}

// A ring's bytes, after their length was tested.
pub type RingBytes = [u8; RING];

// A version number, which is never taken for a key number.
#[repr(C)]
#[derive(Clone, Copy, Debug, PartialEq, Eq)]
pub struct Version(pub u16);

// A key number, which is never taken for a version number.
#[repr(C)]
#[derive(Clone, Copy, Debug, PartialEq, Eq)]
pub struct KeyNumber(pub u16);

// One struct for each length, and one more for each key that is unsealed: an exported function's struct takes no const parameter.
#[repr(C)]
#[derive(Clone, Copy, Debug, PartialEq, Eq)]
pub struct Bytes8 {
    pub refusal: u32,
    pub bytes: [u8; 8],
}

#[repr(C)]
#[derive(Clone, Copy, Debug, PartialEq, Eq)]
pub struct Bytes10 {
    pub refusal: u32,
    pub bytes: [u8; 10],
}

#[repr(C)]
#[derive(Clone, Copy, Debug, PartialEq, Eq)]
pub struct Bytes15 {
    pub refusal: u32,
    pub bytes: [u8; 15],
}

#[repr(C)]
#[derive(Clone, Copy, Debug, PartialEq, Eq)]
pub struct Bytes16 {
    pub refusal: u32,
    pub bytes: [u8; 16],
}

// What TA12 and TA22 answer.
#[repr(C)]
#[derive(Clone, Copy, Debug, PartialEq, Eq)]
pub struct Authentication {
    pub refusal: u32,
    pub response: [u8; 4],
    pub key: [u8; 10],
}

// A response and a key, as TA12 and TA22 choose them from BL1's output.
#[derive(Clone, Copy, Debug, PartialEq, Eq)]
pub struct ResponseAndKey {
    pub response: [u8; 4],
    pub key: [u8; 10],
}

// What TA61 and its inverse answer.
#[repr(C)]
#[derive(Clone, Copy, Debug, PartialEq, Eq)]
pub struct Identity {
    pub refusal: u32,
    pub identity: u32,
}

// What TA32 answers.
#[repr(C)]
#[derive(Clone, Copy, Debug, PartialEq, Eq)]
pub struct Unsealed {
    pub refusal: u32,
    pub key: [u8; 10],
    pub failed_checks: u16,
}

// What TA52 and TA82 answer.
#[repr(C)]
#[derive(Clone, Copy, Debug, PartialEq, Eq)]
pub struct UnsealedNumbered {
    pub refusal: u32,
    pub key: [u8; 10],
    pub number: u16,
    pub failed_checks: u16,
}

// What TA92 answers.
#[repr(C)]
#[derive(Clone, Copy, Debug, PartialEq, Eq)]
pub struct UnsealedGroup {
    pub refusal: u32,
    pub key: [u8; 12],
    pub failed_checks: u16,
}

// A key of N bytes that was unsealed, and a bit for each check of its text that fails.
#[derive(Clone, Copy, Debug, PartialEq, Eq)]
pub struct Opened<const N: usize> {
    pub key: [u8; N],
    pub failed_checks: u16,
}

// The same with its number.
#[derive(Clone, Copy, Debug, PartialEq, Eq)]
pub struct OpenedNumbered {
    pub key: [u8; 10],
    pub number: u16,
    pub failed_checks: u16,
}

// What the inverses of TB1 and TB3 answer.
#[repr(C)]
#[derive(Clone, Copy, Debug, PartialEq, Eq)]
pub struct Value {
    pub refusal: u32,
    pub value: u32,
}

// What the inverse of TB5 answers.
#[repr(C)]
#[derive(Clone, Copy, Debug, PartialEq, Eq)]
pub struct Cell {
    pub refusal: u32,
    pub location_area: u32,
    pub carrier: u32,
    pub colour_code: u32,
}

// The fields that TB5 mixes into a key.
#[derive(Clone, Copy, Debug, PartialEq, Eq)]
pub struct CellFields {
    pub location_area: u32,
    pub carrier: u32,
    pub colour_code: u32,
}

// What the inverse of TB6 answers.
#[repr(C)]
#[derive(Clone, Copy, Debug, PartialEq, Eq)]
pub struct CarrierIdentity {
    pub refusal: u32,
    pub carrier: u32,
    pub identity: u32,
}

// The fields that TB6 mixes into a key.
#[derive(Clone, Copy, Debug, PartialEq, Eq)]
pub struct CarrierFields {
    pub carrier: u32,
    pub identity: u32,
}

// What the restoring of a card answers: the group key, and the card in its TB7 form.
#[repr(C)]
#[derive(Clone, Copy, Debug, PartialEq, Eq)]
pub struct Card {
    pub refusal: u32,
    pub key: [u8; 12],
    pub card: [u8; 16],
}

// A restored card, and its key.
#[derive(Clone, Copy, Debug, PartialEq, Eq)]
pub struct RestoredCard {
    pub key: [u8; 12],
    pub card: [u8; 16],
}

// What the ring recipe takes.
#[derive(Clone, Copy, Debug, PartialEq, Eq)]
pub struct RingInputs {
    pub root: [u8; 16],
    pub rs: [u8; 10],
    pub rso: [u8; 10],
    pub rand1: [u8; 10],
    pub rand2: [u8; 10],
    pub c: [u8; 10],
    pub group_key: [u8; 12],
    // A number, since the definition (`Keys.ring_of`) refuses by it whatever is handed in.
    pub sides: u64,
    pub response_mask: u16,
    pub key_mask: u16,
}

// What the ring recipe answers.
#[repr(C)]
#[derive(Clone, Copy, Debug, PartialEq, Eq)]
pub struct RingMade {
    pub refusal: u32,
    pub ring: RingBytes,
    pub response1: [u8; 4],
    pub response2: [u8; 4],
}

// A ring, and the responses of both sides.
#[derive(Clone, Copy, Debug, PartialEq, Eq)]
pub struct RingAndResponses {
    pub ring: RingBytes,
    pub response1: [u8; 4],
    pub response2: [u8; 4],
}

// What a book call answers: a refused book has the offending record's index, and nothing written; an accepted one the number of records.
#[repr(C)]
#[derive(Clone, Copy, Debug, PartialEq, Eq)]
pub struct BookAnswer {
    pub refusal: u32,
    pub index: usize,
    pub written: usize,
}

// What an accepted list came to: its records, and the bytes written for them.
#[derive(Clone, Copy, Debug, PartialEq, Eq)]
pub struct Written {
    pub records: usize,
    pub bytes: usize,
}

// A list's refusal, and the index of the record that caused it; 0 if none did.
#[derive(Clone, Copy, Debug, PartialEq, Eq)]
pub struct RefusedAt {
    pub refusal: Refusal,
    pub index: usize,
}

// What sealing and opening a book answer: also how many block cipher runs they took.
#[repr(C)]
#[derive(Clone, Copy, Debug, PartialEq, Eq)]
pub struct CountedAnswer {
    pub refusal: u32,
    pub index: usize,
    pub written: usize,
    pub runs: usize,
}

// The same of a book that was sealed or opened, with the block cipher runs.
#[derive(Clone, Copy, Debug, PartialEq, Eq)]
pub struct CountedWritten {
    pub records: usize,
    pub bytes: usize,
    pub runs: usize,
}

#[derive(Clone, Copy, Debug, PartialEq, Eq)]
pub struct CountedRefusal {
    pub refusal: Refusal,
    pub index: usize,
    pub runs: usize,
}

// What the diffusion tally answers: the flips tried, the total of changed bits, the least and the greatest change of one flip.
#[repr(C)]
#[derive(Clone, Copy, Debug, PartialEq, Eq)]
pub struct Tally {
    pub refusal: u32,
    pub flips: u32,
    pub total: u32,
    pub least: u32,
    pub greatest: u32,
}

// The figures of a tally.
#[derive(Clone, Copy, Debug, PartialEq, Eq)]
pub struct Changes {
    pub flips: u32,
    pub total: u32,
    pub least: u32,
    pub greatest: u32,
}

// The algorithms that seal a key, each with its inverse.
#[derive(Clone, Copy, Debug, PartialEq, Eq)]
pub enum Algorithm {
    Ta31,
    Ta51,
    Ta81,
    Ta91,
}

// The keys of a ring that seal.
#[derive(Clone, Copy, Debug, PartialEq, Eq)]
pub enum RingKey {
    D,
    O,
    G,
}

// The kind of a record: the algorithm that seals its key, and the key of the ring that it is sealed under.
#[derive(Clone, Copy, Debug, PartialEq, Eq)]
pub struct Kind {
    pub algorithm: Algorithm,
    pub under: RingKey,
}

impl Kind {
    // The bytes of a cipher key and of a group key.
    pub const CIPHER_KEY: usize = 10;

    pub const GROUP_KEY: usize = 12;

    // The bytes of the key that seals kind 1, and of those that seal the other kinds.
    pub const TA31_SEALING_KEY: usize = 10;

    pub const SEALING_KEY: usize = 16;

    // The highest key numbers of five and of sixteen bits.
    pub const TA51_HIGHEST: u16 = 31;

    pub const TA81_HIGHEST: u16 = 65535;

    #[tactic(auto, unfolding(crate::specs::Seals::kind_of))]
    pub fn from_byte(b: u8) -> Option<Kind>
        ensures { result ≡ kind_of b }
    {
        match b {
            1 => known(Algorithm::Ta31, RingKey::D),
            2 => known(Algorithm::Ta51, RingKey::O),
            3 => known(Algorithm::Ta81, RingKey::O),
            4 => known(Algorithm::Ta91, RingKey::O),
            5 => known(Algorithm::Ta51, RingKey::G),
            6 => known(Algorithm::Ta81, RingKey::G),
            _ => None,
        }
    }

    pub fn key_length(self) -> usize
        ensures { result ≡ key_length self.algorithm }
    {
        match self.algorithm {
            Algorithm::Ta31 => Self::CIPHER_KEY,
            Algorithm::Ta51 => Self::CIPHER_KEY,
            Algorithm::Ta81 => Self::CIPHER_KEY,
            Algorithm::Ta91 => Self::GROUP_KEY,
        }
    }

    // The highest key number; 0 where the kind has none.
    pub fn highest_number(self) -> u16
        ensures { result ≡ highest_number self.algorithm }
    {
        match self.algorithm {
            Algorithm::Ta31 => 0,
            Algorithm::Ta51 => Self::TA51_HIGHEST,
            Algorithm::Ta81 => Self::TA81_HIGHEST,
            Algorithm::Ta91 => 0,
        }
    }
}

fn known(algorithm: Algorithm, under: RingKey) -> Option<Kind>
    ensures { result ≡ kind algorithm under }
{
    Some(Kind { algorithm, under })
}

// The number that two bytes spell, the high one first. It stands beside `from_be_bytes` for both facts that its callers cite.
#[tactic(auto, using(crate::proofs::BytesLaws::pair_bytes))]
pub fn pair(high: u8, low: u8) -> u16
    ensures { (result ≡ 256 * high + low) × (bytes_of 2 result ≡ high ∷ low ∷ []) }
{
    u16::from_be_bytes([high, low])
}
