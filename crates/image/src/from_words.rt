//! An image that is given by its words.
ghost use Rattle.std.specs.Prelude.{◌≡◌, ◌≢◌, [], IfOk, IfErr};
ghost use Rattle.std.specs.List.{flat_map};
ghost use Rattle.image.specs.Images.{word_bytes};

use std::alloc::{AllocError, Global};

/// The bytes of words, one word's after another's, each word's lowest byte first. No memory is asked for where there is no word.
pub fn bytes_of(heap: Global, words: &[u32]) -> Result<Vec<u8>, AllocError>
    ensures made { IfOk result (λ bytes. bytes.items ≡ flat_map word_bytes words.now) }
    ensures short { IfErr result (λ _. words.now ≢ []) }
{
    let mut bytes = Vec::new(heap);
    for word in words {
        bytes.extend_from_slice(&word.to_le_bytes())?;
    }
    Ok(bytes)
}
