// Fields of eight bytes.
ghost use Rattle.std.specs.Prelude.{◌≡◌, ◌+◌, ◌≤◌};
ghost use Rattle.standard.specs.Inverses.{field as field_of};

// The `width` bits that stand `from` bits from the left end.
#[tactic(auto, using(crate::proofs::BitLaws::number8, crate::proofs::BitLaws::shl_one), unfolding(standard::specs::Inverses::field))]
pub(crate) fn field(b: [u8; 8], from: u64, width: u64) -> u32
    requires { (1 ≤ width) × (width ≤ 32) × (from + width ≤ 64) }
    ensures { result ≡ field_of from width b }
{
    ((u64::from_be_bytes(b) >> (64 - (from + width))) % (1u64 << width)) as u32
}
