//! RIPEMD-160 for programs in C, as a static library.
//!
//! Its one function writes what `digest::ripemd160` returns. `bench/ripemd160.sh` compares its speed with
//! OpenSSL's. No crate depends on it.
#![tactic(auto)]

ghost use Rattle.std.specs.Prelude.{◌≡◌};
ghost use Rattle.digest.specs.Ripemd160.{ripemd160};

/// Writes RIPEMD-160 of `message` to `out`, 20 bytes.
/// In C: `void digest_ripemd160(const unsigned char *message, size_t length, unsigned char (*out)[20])`.
#[unsafe(no_mangle)]
pub extern "C" fn digest_ripemd160(message: &[u8], out: &mut [u8; 20])
    ensures { out.new ≡ ripemd160 message.now }
{
    *out = digest::ripemd160(message);
}
