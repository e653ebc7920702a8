//! How an image is padded.
ghost use Rattle.std.specs.Prelude.{◌≡◌, ◌≤◌};
ghost use Rattle.image.specs.Images.{padded_size, Padded};

use super::PaddedImage;
use base::failure::Failure;
use base::refusal::Refusal;

/// How many bytes an image is padded to: a multiple of 16, and at least 16.
fn padded_size(len: usize) -> usize
    requires { len ≤ 65536 }
    ensures { result ≡ padded_size len }
{
    ((len + 15) / 16 * 16).max(16)
}

/// An image with zeros behind it up to a multiple of 16, at least 16 bytes in all; refused above 65536 bytes. Memory is asked for
/// only where the vector has no room for the zeros.
pub fn padded(mut image: Vec<u8>) -> Result<PaddedImage, Failure>
    ensures { Padded image result }
{
    if image.len() > 65536 {
        return Err(Failure::Refused(Refusal::FlatSize));
    }
    image.resize_with(padded_size(image.len()), || 0)?;
    Ok(PaddedImage { bytes: image })
}
