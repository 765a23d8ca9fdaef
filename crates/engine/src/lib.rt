// The calls for hosts in other languages (include/taa1.h). Each makes a library call and hands out its value or refusal as the struct that C
// has. A byte string comes as a pointer and a length.
#![tactic(auto)]

ghost use Rattle.std.specs.Prelude.{◌≡◌};
ghost use Rattle.standard.specs.Books.{seal_book, open_book, check_plain};
ghost use Rattle.standard.specs.Cards.{restore_call};
ghost use Rattle.standard.specs.Classes.{ta12_class_call};
ghost use Rattle.standard.specs.Columns.{to_columns, from_columns, columns_call};
ghost use Rattle.standard.specs.Keys.{ta11_call, ta21_call, ta41_call, ta12_call, ta22_call, ta71_call, ta101_call, ring_call};
ghost use Rattle.standard.specs.Diffusion.{diffusion_call};
ghost use Rattle.standard.specs.Hurdle.{encrypt_call, decrypt_call};
ghost use Rattle.standard.specs.Identity.{ta61_call, ta61⁻¹_call};
ghost use Rattle.standard.specs.Inverses.{tb1⁻¹_call, tb3⁻¹_call, tb5⁻¹_call, tb6⁻¹_call};
ghost use Rattle.standard.specs.Lineage.{lineage_call};
ghost use Rattle.standard.specs.Mixing.{tb1_call, tb2_call, tb3_call, tb4_call, tb5_call, tb6_call, tb7_call};
ghost use Rattle.standard.specs.Register.{register_call};
ghost use Rattle.standard.specs.Seals.{ta31_call, ta32_call, ta51_call, ta52_call, ta81_call, ta82_call, ta91_call, ta92_call};
ghost use Rattle.standard.specs.Sizes.{plain_size, sealed_size};

use standard::{
    Authentication, BookAnswer, Bytes8, Bytes10, Bytes15, Bytes16, Card, CarrierIdentity, Cell,
    CountedAnswer, Identity, KeyNumber, RingMade, Tally, Unsealed, UnsealedGroup, UnsealedNumbered,
    Value, Version,
};

// The release, by which a host can tell whether the archive is that of its header.
#[repr(C)]
#[derive(Clone, Copy, Debug, PartialEq, Eq)]
pub struct Release {
    pub major: u32,
    pub minor: u32,
    pub patch: u32,
}

#[unsafe(no_mangle)]
pub extern "C" fn taa1_release() -> Release
    ensures { result ≡ record { major = 1; minor = 1; patch = 0 } }
{
    Release {
        major: 1,
        minor: 1,
        patch: 0,
    }
}

#[unsafe(no_mangle)]
pub extern "C" fn taa1_encrypt(key: &[u8], block: &[u8]) -> Bytes8
    ensures { result ≡ encrypt_call key.now block.now }
{
    hurdle::encrypt(key, block).into()
}

#[unsafe(no_mangle)]
pub extern "C" fn taa1_decrypt(key: &[u8], block: &[u8]) -> Bytes8
    ensures { result ≡ decrypt_call key.now block.now }
{
    hurdle::decrypt(key, block).into()
}

#[unsafe(no_mangle)]
pub extern "C" fn taa1_encrypt_register(key: &[u8], block: &[u8]) -> Bytes8
    ensures { result ≡ encrypt_call key.now block.now }
{
    register::encrypt_register(key, block).into()
}

#[unsafe(no_mangle)]
pub extern "C" fn taa1_decrypt_register(key: &[u8], block: &[u8]) -> Bytes8
    ensures { result ≡ decrypt_call key.now block.now }
{
    register::decrypt_register(key, block).into()
}

#[unsafe(no_mangle)]
pub extern "C" fn taa1_register(key: &[u8], steps: u64) -> Bytes16
    ensures { result ≡ register_call key.now steps }
{
    register::register(key, steps).into()
}

#[unsafe(no_mangle)]
pub extern "C" fn taa1_diffusion(records: &[u8]) -> Tally
    ensures { result ≡ diffusion_call records.now }
{
    diffusion::diffusion(records).into()
}

#[unsafe(no_mangle)]
pub extern "C" fn taa1_ta11(root: &[u8], seed: &[u8]) -> Bytes16
    ensures { result ≡ ta11_call root.now seed.now }
{
    keys::ta11(root, seed).into()
}

#[unsafe(no_mangle)]
pub extern "C" fn taa1_ta21(root: &[u8], seed: &[u8]) -> Bytes16
    ensures { result ≡ ta21_call root.now seed.now }
{
    keys::ta21(root, seed).into()
}

#[unsafe(no_mangle)]
pub extern "C" fn taa1_ta41(root: &[u8], seed: &[u8]) -> Bytes16
    ensures { result ≡ ta41_call root.now seed.now }
{
    keys::ta41(root, seed).into()
}

#[unsafe(no_mangle)]
pub extern "C" fn taa1_ta12(
    session_key: &[u8],
    challenge: &[u8],
    response_mask: u16,
    key_mask: u16,
) -> Authentication
    ensures { result ≡ ta12_call session_key.now challenge.now response_mask key_mask }
{
    keys::ta12(session_key, challenge, response_mask, key_mask).into()
}

#[unsafe(no_mangle)]
pub extern "C" fn taa1_ta22(
    session_key: &[u8],
    challenge: &[u8],
    response_mask: u16,
    key_mask: u16,
) -> Authentication
    ensures { result ≡ ta22_call session_key.now challenge.now response_mask key_mask }
{
    keys::ta22(session_key, challenge, response_mask, key_mask).into()
}

#[unsafe(no_mangle)]
pub extern "C" fn taa1_ta12_class(
    session_key: &[u8],
    challenges: &[u8],
    response_mask: u16,
    key_mask: u16,
    out: &mut [u8],
) -> BookAnswer
    ensures { (result, out.new)
        ≡ ta12_class_call session_key.now challenges.now response_mask key_mask out.old }
{
    classes::ta12_class(session_key, challenges, response_mask, key_mask, out).into()
}

#[unsafe(no_mangle)]
pub extern "C" fn taa1_ta31(cipher_key: &[u8], version: Version, sealing_key: &[u8]) -> Bytes15
    ensures { result ≡ ta31_call cipher_key.now version sealing_key.now }
{
    seals::ta31(cipher_key, version, sealing_key).into()
}

#[unsafe(no_mangle)]
pub extern "C" fn taa1_ta32(text: &[u8], sealing_key: &[u8], version: Version) -> Unsealed
    ensures { result ≡ ta32_call text.now sealing_key.now version }
{
    seals::ta32(text, sealing_key, version).into()
}

#[unsafe(no_mangle)]
pub extern "C" fn taa1_ta51(
    cipher_key: &[u8],
    version: Version,
    sealing_key: &[u8],
    number: KeyNumber,
) -> Bytes15
    ensures { result ≡ ta51_call cipher_key.now version sealing_key.now number }
{
    seals::ta51(cipher_key, version, sealing_key, number).into()
}

#[unsafe(no_mangle)]
pub extern "C" fn taa1_ta52(text: &[u8], sealing_key: &[u8], version: Version) -> UnsealedNumbered
    ensures { result ≡ ta52_call text.now sealing_key.now version }
{
    seals::ta52(text, sealing_key, version).into()
}

#[unsafe(no_mangle)]
pub extern "C" fn taa1_ta61(common_key: &[u8], identity: u64) -> Identity
    ensures { result ≡ ta61_call common_key.now identity }
{
    identity::ta61(common_key, identity).into()
}

#[unsafe(no_mangle)]
pub extern "C" fn taa1_ta61_inverse(common_key: &[u8], encrypted_identity: u64) -> Identity
    ensures { result ≡ ta61⁻¹_call common_key.now encrypted_identity }
{
    identity::ta61_inverse(common_key, encrypted_identity).into()
}

#[unsafe(no_mangle)]
pub extern "C" fn taa1_ta71(key1: &[u8], key2: &[u8]) -> Bytes10
    ensures { result ≡ ta71_call key1.now key2.now }
{
    keys::ta71(key1, key2).into()
}

#[unsafe(no_mangle)]
pub extern "C" fn taa1_ta81(
    cipher_key: &[u8],
    version: Version,
    sealing_key: &[u8],
    number: KeyNumber,
) -> Bytes15
    ensures { result ≡ ta81_call cipher_key.now version sealing_key.now number }
{
    seals::ta81(cipher_key, version, sealing_key, number).into()
}

#[unsafe(no_mangle)]
pub extern "C" fn taa1_ta82(text: &[u8], sealing_key: &[u8], version: Version) -> UnsealedNumbered
    ensures { result ≡ ta82_call text.now sealing_key.now version }
{
    seals::ta82(text, sealing_key, version).into()
}

#[unsafe(no_mangle)]
pub extern "C" fn taa1_ta91(group_key: &[u8], version: Version, sealing_key: &[u8]) -> Bytes15
    ensures { result ≡ ta91_call group_key.now version sealing_key.now }
{
    seals::ta91(group_key, version, sealing_key).into()
}

#[unsafe(no_mangle)]
pub extern "C" fn taa1_ta92(text: &[u8], sealing_key: &[u8], version: Version) -> UnsealedGroup
    ensures { result ≡ ta92_call text.now sealing_key.now version }
{
    seals::ta92(text, sealing_key, version).into()
}

#[unsafe(no_mangle)]
pub extern "C" fn taa1_ta101(ks: &[u8], gck0: &[u8], mni: u64) -> Bytes16
    ensures { result ≡ ta101_call ks.now gck0.now mni }
{
    keys::ta101(ks, gck0, mni).into()
}

#[unsafe(no_mangle)]
pub extern "C" fn taa1_tb1(value: u64, width: u64) -> Bytes16
    ensures { result ≡ tb1_call value width }
{
    mixing::tb1(value, width).into()
}

#[unsafe(no_mangle)]
pub extern "C" fn taa1_tb2(input: &[u8]) -> Bytes16
    ensures { result ≡ tb2_call input.now }
{
    mixing::tb2(input).into()
}

#[unsafe(no_mangle)]
pub extern "C" fn taa1_tb3(input: &[u8], value: u64, width: u64) -> Bytes16
    ensures { result ≡ tb3_call input.now value width }
{
    mixing::tb3(input, value, width).into()
}

#[unsafe(no_mangle)]
pub extern "C" fn taa1_tb4(input1: &[u8], input2: &[u8]) -> Bytes10
    ensures { result ≡ tb4_call input1.now input2.now }
{
    mixing::tb4(input1, input2).into()
}

#[unsafe(no_mangle)]
pub extern "C" fn taa1_tb5(
    cipher_key: &[u8],
    location_area: u64,
    carrier: u64,
    colour_code: u64,
) -> Bytes10
    ensures { result ≡ tb5_call cipher_key.now location_area carrier colour_code }
{
    mixing::tb5(cipher_key, location_area, carrier, colour_code).into()
}

#[unsafe(no_mangle)]
pub extern "C" fn taa1_tb6(cipher_key: &[u8], carrier: u64, identity: u64) -> Bytes10
    ensures { result ≡ tb6_call cipher_key.now carrier identity }
{
    mixing::tb6(cipher_key, carrier, identity).into()
}

#[unsafe(no_mangle)]
pub extern "C" fn taa1_tb7(group_key: &[u8]) -> Bytes16
    ensures { result ≡ tb7_call group_key.now }
{
    mixing::tb7(group_key).into()
}

#[unsafe(no_mangle)]
pub extern "C" fn taa1_tb1_inverse(res: &[u8], width: u64) -> Value
    ensures { result ≡ tb1⁻¹_call res.now width }
{
    inverses::tb1_inverse(res, width).into()
}

#[unsafe(no_mangle)]
pub extern "C" fn taa1_tb3_inverse(input: &[u8], res: &[u8], width: u64) -> Value
    ensures { result ≡ tb3⁻¹_call input.now res.now width }
{
    inverses::tb3_inverse(input, res, width).into()
}

#[unsafe(no_mangle)]
pub extern "C" fn taa1_tb5_inverse(cipher_key: &[u8], res: &[u8]) -> Cell
    ensures { result ≡ tb5⁻¹_call cipher_key.now res.now }
{
    inverses::tb5_inverse(cipher_key, res).into()
}

#[unsafe(no_mangle)]
pub extern "C" fn taa1_tb6_inverse(cipher_key: &[u8], res: &[u8]) -> CarrierIdentity
    ensures { result ≡ tb6⁻¹_call cipher_key.now res.now }
{
    inverses::tb6_inverse(cipher_key, res).into()
}

// The sides are a number, as C hands them in.
#[unsafe(no_mangle)]
pub extern "C" fn taa1_ring(
    root: &[u8],
    rs: &[u8],
    rso: &[u8],
    rand1: &[u8],
    rand2: &[u8],
    c: &[u8],
    group_key: &[u8],
    sides: u64,
    response_mask: u16,
    key_mask: u16,
) -> RingMade
    ensures { result
        ≡ ring_call root.now rs.now rso.now rand1.now rand2.now c.now
        group_key.now sides response_mask key_mask }
{
    keys::ring(
        root,
        rs,
        rso,
        rand1,
        rand2,
        c,
        group_key,
        sides,
        response_mask,
        key_mask,
    )
    .into()
}

#[unsafe(no_mangle)]
pub extern "C" fn taa1_seal_book(ring: &[u8], plain: &[u8], out: &mut [u8]) -> CountedAnswer
    ensures { (result, out.new) ≡ seal_book ring.now plain.now out.old }
{
    books::seal_book(ring, plain, out).into()
}

#[unsafe(no_mangle)]
pub extern "C" fn taa1_open_book(ring: &[u8], sealed: &[u8], out: &mut [u8]) -> CountedAnswer
    ensures { (result, out.new) ≡ open_book ring.now sealed.now out.old }
{
    books::open_book(ring, sealed, out).into()
}

#[unsafe(no_mangle)]
pub extern "C" fn taa1_check_plain(plain: &[u8]) -> BookAnswer
    ensures { result ≡ check_plain plain.now }
{
    books::check_plain(plain).into()
}

#[unsafe(no_mangle)]
pub extern "C" fn taa1_lineage(sheet: &[u8], out: &mut [u8]) -> BookAnswer
    ensures { (result, out.new) ≡ lineage_call sheet.now out.old }
{
    lineage::lineage(sheet, out).into()
}

#[unsafe(no_mangle)]
pub extern "C" fn taa1_plain_to_columns(plain: &[u8], out: &mut [u8]) -> BookAnswer
    ensures { (result, out.new) ≡ columns_call plain_size to_columns plain.now out.old }
{
    columns::plain_to_columns(plain, out).into()
}

#[unsafe(no_mangle)]
pub extern "C" fn taa1_plain_from_columns(columns: &[u8], out: &mut [u8]) -> BookAnswer
    ensures { (result, out.new) ≡ columns_call plain_size from_columns columns.now out.old }
{
    columns::plain_from_columns(columns, out).into()
}

#[unsafe(no_mangle)]
pub extern "C" fn taa1_sealed_to_columns(sealed: &[u8], out: &mut [u8]) -> BookAnswer
    ensures { (result, out.new) ≡ columns_call sealed_size to_columns sealed.now out.old }
{
    columns::sealed_to_columns(sealed, out).into()
}

#[unsafe(no_mangle)]
pub extern "C" fn taa1_sealed_from_columns(columns: &[u8], out: &mut [u8]) -> BookAnswer
    ensures { (result, out.new) ≡ columns_call sealed_size from_columns columns.now out.old }
{
    columns::sealed_from_columns(columns, out).into()
}

#[unsafe(no_mangle)]
pub extern "C" fn taa1_restore_card(card: &[u8], unreadable: u16) -> Card
    ensures { result ≡ restore_call card.now unreadable }
{
    cards::restore_card(card, unreadable).into()
}
