ghost use Rattle.std.specs.Prelude.{◌≡◌, IfOk};
ghost use Rattle.dap_frames.specs.Frames.{frame_bytes};

use itoa::Buffer;
use std::alloc::Global;
use wire_core::{Blob, NoMemory};

/// The frame of a body of any length: `Content-Length: `, the length in bytes in decimal, an empty line and the body.
/// `NoMemory` comes where memory is refused. (DAP overview, Base protocol)
pub fn frame(alloc: Global, body: &[u8]) -> Result<Blob, NoMemory>
    ensures { IfOk result (λ text. text ≡ frame_bytes body.now) }
{
    let mut number = Buffer::new();
    let mut text = Vec::from_slice(alloc, b"Content-Length: ")?;
    text.extend_from_slice(number.format(body.len()).as_bytes())?;
    text.extend_from_slice(b"\r\n\r\n")?;
    text.extend_from_slice(body)?;
    Ok(Blob::from_vec(text))
}
