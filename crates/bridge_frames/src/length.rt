//! How long a frame is.
ghost use Rattle.std.specs.Prelude.{◌≡◌};
ghost use Rattle.bridge_frames.specs.Frames.{length_in};

use crate::fault::LinkFault;
use mqtt_fields::{LONGEST_FRAME, u32_at};

/// How many bytes the frame at the front is, its length included: none where the length isn't there
/// yet. TooLarge where more would follow the length than a frame may have. This takes no memory.
pub fn frame_length(bytes: &[u8]) -> Result<Option<usize>, LinkFault>
    ensures { result ≡ length_in bytes.now }
{
    let Ok((length, _)) = u32_at(bytes) else {
        return Ok(None);
    };
    let length = length as usize;
    if length > LONGEST_FRAME {
        return Err(LinkFault::TooLarge);
    }
    Ok(Some(4 + length))
}
