// The constants of HURDLE-II (000, 6.5 and 6.7).
ghost use Rattle.std.specs.Prelude.{◌≡◌};
ghost use Rattle.standard.specs.Bytes.{◌!◌};
ghost use Rattle.standard.specs.Hurdle.{S as s_of, S⁻¹ as s_inverse_of};
ghost use Rattle.hurdle.specs.RoundSteps.{spreads};

pub const S: [u8; 256] = *b"\
    \xf4\x65\x01\x00\xba\x7a\xa7\x47\x98\xdd\x9d\xad\x96\x5d\xaa\x3d\
    \x58\xc0\x72\xd8\x66\x4c\x3e\xe0\x80\x55\xde\x90\x2a\x4b\x83\xa0\
    \x51\x39\xed\x6c\x8a\x2c\x56\x60\x4a\x1f\xd0\x70\x6e\x33\x8b\x26\
    \x2e\x6f\x89\x48\x5e\x40\xc3\xa4\xa9\xcf\x22\x50\xe1\x15\x0c\xab\
    \xd5\xf8\x5f\x36\x04\xa6\x4e\x92\x1e\x2b\x88\x30\x93\x45\x67\x16\
    \x8c\x68\x23\x38\x61\x25\x1a\x81\x63\xcb\xc1\x13\x41\x37\x0e\x97\
    \x5b\xca\x57\x24\x4d\x17\xc4\xb9\xb3\xef\x8d\x52\x32\x2f\xec\x20\
    \xd9\x11\xd1\x28\x79\xda\xfb\xe9\xbb\x06\x77\xdb\xfc\xfe\xcd\x84\
    \x1d\xa1\x54\x1b\xb0\xe4\xcc\x7c\x2d\x27\x31\x49\xf5\x02\x69\x53\
    \x4f\x44\xdf\x18\x5c\x0f\xbc\x9b\x94\xbd\xdc\x0b\xa2\xc7\x09\xac\
    \xc6\x9f\x82\x1c\x05\x46\xc2\x34\x3c\x0d\x3b\xce\xb7\xbe\x08\x9c\
    \x6b\xee\xe5\x87\xaf\xbf\xf2\xeb\x7b\x07\x64\xc5\xb6\xae\x9a\x95\
    \x35\xa5\x59\x12\x9e\xa3\xb8\x8e\x5a\xf7\x62\xd2\x3a\xa8\x7d\x85\
    \xf6\xc8\x71\x29\xd6\xd7\x43\xf9\x78\x76\x73\x10\x91\x19\x0a\x99\
    \xf0\xe6\x3f\x14\xf1\xe2\xb1\x86\xb4\xf3\x74\xfa\x6a\xb2\x21\x6d\
    \xea\xb5\xe7\xe3\xc9\xd3\x8f\x03\x75\xe8\xd4\x42\xfd\x7e\xff\x7f";

pub const S_INVERSE: [u8; 256] = *b"\
    \x03\x02\x8d\xf7\x44\xa4\x79\xb9\xae\x9e\xde\x9b\x3e\xa9\x5e\x95\
    \xdb\x71\xc3\x5b\xe3\x3d\x4f\x65\x93\xdd\x56\x83\xa3\x80\x48\x29\
    \x6f\xee\x3a\x52\x63\x55\x2f\x89\x73\xd3\x1c\x49\x25\x88\x30\x6d\
    \x4b\x8a\x6c\x2d\xa7\xc0\x43\x5d\x53\x21\xcc\xaa\xa8\x0f\x16\xe2\
    \x35\x5c\xfb\xd6\x91\x4d\xa5\x07\x33\x8b\x28\x1d\x15\x64\x46\x90\
    \x3b\x20\x6b\x8f\x82\x19\x26\x62\x10\xc2\xc8\x60\x94\x0d\x34\x42\
    \x27\x54\xca\x58\xba\x01\x14\x4e\x51\x8e\xec\xb0\x23\xef\x2c\x31\
    \x2b\xd2\x12\xda\xea\xf8\xd9\x7a\xd8\x74\x05\xb8\x87\xce\xfd\xff\
    \x18\x57\xa2\x1e\x7f\xcf\xe7\xb3\x4a\x32\x24\x2e\x50\x6a\xc7\xf6\
    \x1b\xdc\x47\x4c\x98\xbf\x0c\x5f\x08\xdf\xbe\x97\xaf\x0a\xc4\xa1\
    \x1f\x81\x9c\xc5\x37\xc1\x45\x06\xcd\x38\x0e\x3f\x9f\x0b\xbd\xb4\
    \x84\xe6\xed\x68\xe8\xf1\xbc\xac\xc6\x67\x04\x78\x96\x99\xad\xb5\
    \x11\x5a\xa6\x36\x66\xbb\xa0\x9d\xd1\xf4\x61\x59\x86\x7e\xab\x39\
    \x2a\x72\xcb\xf5\xfa\x40\xd4\xd5\x13\x70\x75\x7b\x9a\x09\x1a\x92\
    \x17\x3c\xe5\xf3\x85\xb2\xe1\xf2\xf9\x77\xf0\xb7\x6e\x22\xb1\x69\
    \xe0\xe4\xb6\xe9\x00\x8c\xd0\xc9\x41\xd7\xeb\x76\x7c\xfc\x7d\xfe";

// The low four bits of each entry of S, spread over the bytes of a word: bit n is the lowest bit of byte n.
pub const SPREAD: [u32; 256] = [
    0x0010000, 0x0010001, 0x0000001, 0x0000000, 0x1000100, 0x1000100, 0x0010101, 0x0010101,
    0x1000000, 0x1010001, 0x1010001, 0x1010001, 0x0010100, 0x1010001, 0x1000100, 0x1010001,
    0x1000000, 0x0000000, 0x0000100, 0x1000000, 0x0010100, 0x1010000, 0x1010100, 0x0000000,
    0x0000000, 0x0010001, 0x1010100, 0x0000000, 0x1000100, 0x1000101, 0x0000101, 0x0000000,
    0x0000001, 0x1000001, 0x1010001, 0x1010000, 0x1000100, 0x1010000, 0x0010100, 0x0000000,
    0x1000100, 0x1010101, 0x0000000, 0x0000000, 0x1010100, 0x0000101, 0x1000101, 0x0010100,
    0x1010100, 0x1010101, 0x1000001, 0x1000000, 0x1010100, 0x0000000, 0x0000101, 0x0010000,
    0x1000001, 0x1010101, 0x0000100, 0x0000000, 0x0000001, 0x0010001, 0x1010000, 0x1000101,
    0x0010001, 0x1000000, 0x1010101, 0x0010100, 0x0010000, 0x0010100, 0x1010100, 0x0000100,
    0x1010100, 0x1000101, 0x1000000, 0x0000000, 0x0000101, 0x0010001, 0x0010101, 0x0010100,
    0x1010000, 0x1000000, 0x0000101, 0x1000000, 0x0000001, 0x0010001, 0x1000100, 0x0000001,
    0x0000101, 0x1000101, 0x0000001, 0x0000101, 0x0000001, 0x0010101, 0x1010100, 0x0010101,
    0x1000101, 0x1000100, 0x0010101, 0x0010000, 0x1010001, 0x0010101, 0x0010000, 0x1000001,
    0x0000101, 0x1010101, 0x1010001, 0x0000100, 0x0000100, 0x1010101, 0x1010000, 0x0000000,
    0x1000001, 0x0000001, 0x0000001, 0x1000000, 0x1000001, 0x1000100, 0x1000101, 0x1000001,
    0x1000101, 0x0010100, 0x0010101, 0x1000101, 0x1010000, 0x1010100, 0x1010001, 0x0010000,
    0x1010001, 0x0000001, 0x0010000, 0x1000101, 0x0000000, 0x0010000, 0x1010000, 0x1010000,
    0x1010001, 0x0010101, 0x0000001, 0x1000001, 0x0010001, 0x0000100, 0x1000001, 0x0000101,
    0x1010101, 0x0010000, 0x1010101, 0x1000000, 0x1010000, 0x1010101, 0x1010000, 0x1000101,
    0x0010000, 0x1010001, 0x1010000, 0x1000101, 0x0000100, 0x0010101, 0x1000001, 0x1010000,
    0x0010100, 0x1010101, 0x0000100, 0x1010000, 0x0010001, 0x0010100, 0x0000100, 0x0010000,
    0x1010000, 0x1010001, 0x1000101, 0x1010100, 0x0010101, 0x1010100, 0x1000000, 0x1010000,
    0x1000101, 0x1010100, 0x0010001, 0x0010101, 0x1010101, 0x1010101, 0x0000100, 0x1000101,
    0x1000101, 0x0010101, 0x0010000, 0x0010001, 0x0010100, 0x1010100, 0x1000100, 0x0010001,
    0x0010001, 0x0010001, 0x1000001, 0x0000100, 0x1010100, 0x0000101, 0x1000000, 0x1010100,
    0x1000100, 0x0010101, 0x0000100, 0x0000100, 0x1000100, 0x1000000, 0x1010001, 0x0010001,
    0x0010100, 0x1000000, 0x0000001, 0x1000001, 0x0010100, 0x0010101, 0x0000101, 0x1000001,
    0x1000000, 0x0010100, 0x0000101, 0x0000000, 0x0000001, 0x1000001, 0x1000100, 0x1000001,
    0x0000000, 0x0010100, 0x1010101, 0x0010000, 0x0000001, 0x0000100, 0x0000001, 0x0010100,
    0x0010000, 0x0000101, 0x0010000, 0x1000100, 0x1000100, 0x0000100, 0x0000001, 0x1010001,
    0x1000100, 0x0010001, 0x0010101, 0x0000101, 0x1000001, 0x0000101, 0x1010101, 0x0000101,
    0x0010001, 0x1000000, 0x0010000, 0x0000100, 0x1010001, 0x1010100, 0x1010101, 0x1010101,
];

// The constant that the key schedule adds, and the rotations a1, a2, ..
pub const D: [u8; 16] = *b"\x3c\xa7\xec\x25\x79\x57\xdf\xc0\x38\x0a\x33\x1e\xf3\x8c\xf4\xf7";

pub const A: [usize; 16] = [5, 5, 5, 5, 3, 7, 5, 5, 5, 5, 7, 3, 5, 5, 5, 5];

// How far the key is rotated in each round key: the running sums of a1, a2, .. modulo 16.
pub(crate) static ROTATIONS: [usize; 16] = [0, 5, 10, 15, 4, 7, 14, 3, 8, 13, 2, 9, 12, 1, 6, 11];

// The round keys of the zero key: what D leaves in each round key, whatever the key.
pub(crate) static MASKS: [u8; 192] = *b"\
    \x00\x00\x00\x00\x00\x00\x00\x00\x00\x00\x00\x00\
    \x79\x57\xdf\xc0\x38\x0a\x33\x1e\xf3\x8c\xf4\xf7\
    \x73\x64\xc1\x33\xb4\xfe\xc4\x22\x54\x60\xd1\x8e\
    \x87\x93\xfd\x94\x58\xdb\xbd\x75\x8b\xa0\xe9\x84\
    \xa2\xea\xaa\x4b\x98\xe3\xb7\x46\x95\x53\x65\x70\
    \x32\xcf\x3c\x77\x7e\x9f\x60\x7b\x83\x23\xae\x8f\
    \x02\xd4\xfc\x6e\xb7\x4b\x36\x18\x7c\xbe\x3b\xcb\
    \x32\x61\xc7\xbc\x86\x31\xf8\x55\x2a\xff\xb1\xf5\
    \x48\xaf\x8a\xea\xc7\xbb\xc6\xf6\xa8\x0e\x66\xc5\
    \xc2\x91\x29\x68\x36\x6c\xf6\x43\x93\xdc\x57\xbf\
    \x15\xa1\x9c\x53\xe4\x5d\x8c\x8d\xde\x8a\x16\x35\
    \xf4\x89\x55\xd6\x0d\xa7\xbd\x9a\xe0\x99\x55\x6b\
    \xaf\x5a\x78\x7d\xa2\xea\xaa\x4b\x98\xe3\xb7\x46\
    \x93\xfd\x94\x58\xdb\xbd\x75\x8b\xa0\xe9\x84\x58\
    \xc4\x22\x54\x60\xd1\x8e\x6b\x78\x2c\x1d\x73\x64\
    \xf7\x3c\xa7\xec\x25\x79\x57\xdf\xc0\x38\x0a\x33";

// The tables that f and TA61 look up. Naming a constant copies it whole, and a static is read in its place.
static S_ENTRIES: [u8; 256] = S;

static S_INVERSE_ENTRIES: [u8; 256] = S_INVERSE;

static SPREAD_ENTRIES: [u32; 256] = SPREAD;

// A function that names a table is proved with all its entries in sight, so the others call these.
pub(crate) fn s_at(b: u8) -> u8
    ensures { result ≡ s_of ! b }
{
    S_ENTRIES[usize::from(b)]
}

pub(crate) fn s_inverse_at(b: u8) -> u8
    ensures { result ≡ s_inverse_of ! b }
{
    S_INVERSE_ENTRIES[usize::from(b)]
}

// S and SPREAD, lent where they stand.
pub fn s_table() -> &'static [u8; 256]
    ensures { result.now ≡ s_of }
{
    &S_ENTRIES
}

pub fn spread_table() -> &'static [u32; 256]
    ensures { result.now ≡ spreads }
{
    &SPREAD_ENTRIES
}
