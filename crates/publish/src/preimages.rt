// Preimages by their hash.

ghost use Rattle.std.specs.Prelude.{◌≡◌};
ghost use Rattle.publish.specs.Published.{preimage_among};

use digest::sha256;

/// The first of these preimages that has this SHA-256.
pub(crate) fn preimage_among(preimages: &[[u8; 32]], hash: &[u8; 32]) -> Option<[u8; 32]>
    ensures { result ≡ preimage_among preimages.now hash.now }
{
    for preimage in preimages {
        if sha256(preimage) == *hash {
            return Some(*preimage);
        }
    }
    None
}
