// The cipher's single steps for bench/, which times them. No host links this.
#![tactic(auto)]

ghost use Rattle.std.specs.Prelude.{◌≡◌};
ghost use Rattle.standard.specs.Hurdle.{schedule, encrypt_with, decrypt_with};

#[unsafe(no_mangle)]
pub extern "C" fn taa1_bench_schedule(key: &[u8; 16], keys: &mut [u8; 192])
    ensures { keys.new ≡ schedule key.now }
{
    *keys = hurdle::schedule(*key);
}

#[unsafe(no_mangle)]
pub extern "C" fn taa1_bench_encrypt_with(keys: &[u8; 192], block: &mut [u8; 8])
    ensures { block.new ≡ encrypt_with keys.now block.old }
{
    *block = hurdle::encrypt_with(keys, *block);
}

// Decryption stands here too, so that the compiler can't fit the rounds to encryption alone.
#[unsafe(no_mangle)]
pub extern "C" fn taa1_bench_decrypt_with(keys: &[u8; 192], block: &mut [u8; 8])
    ensures { block.new ≡ decrypt_with keys.now block.old }
{
    *block = hurdle::decrypt_with(keys, *block);
}
