ghost use Rattle.std.specs.Prelude.{◌≡◌, ◌+◌, length};

use crate::rows::shown;
use dap_frames::Cutter;
use std::alloc::Global;
use std::test::Fail;

/// A cutter of frames, and how many bytes it was fed.
#[derive(Drop)]
pub(crate) struct FrameFeed {
    cutter: Cutter,
    fed: usize,
    ghost counted: { cutter.at + length cutter.pending ≡ fed },
}

impl FrameFeed {
    pub(crate) fn new(alloc: Global) -> FrameFeed {
        FrameFeed {
            cutter: Cutter::new(alloc),
            fed: 0,
        }
    }

    pub(crate) fn feed(&mut self, piece: &[u8]) -> Result<(), Fail> {
        if self.fed > 9999 || piece.len() > 9999 {
            return Err("more than a row has".into());
        }
        self.cutter.feed(piece)?;
        self.fed += piece.len();
        Ok(())
    }

    /// Tells the offset and the bytes of each body, and where one is refused.
    pub(crate) fn tell_all(&mut self, alloc: Global, told: &mut String) -> Result<(), Fail> {
        for _ in 0..4 {
            if !self.tell(alloc, told)? {
                return Ok(());
            }
        }
        Err("more bodies than a row has".into())
    }

    // Tells the next body, and whether there may be more.
    #[tactic(auto, using(crate::proofs::Sizes::taken_frame_size))]
    fn tell(&mut self, alloc: Global, told: &mut String) -> Result<bool, Fail> {
        match self.cutter.take() {
            Ok(Some(body)) => {
                let bytes = shown(alloc, body.bytes)?;
                let text = format!(in alloc; "<{} {bytes}>", body.at)?;
                told.push_str(text.as_str())?;
                Ok(true)
            }
            Ok(None) => Ok(false),
            Err(trouble) => {
                let fault = trouble.fault;
                let text = format!(in alloc; "<{} {fault:?}, {fault}>", trouble.at)?;
                told.push_str(text.as_str())?;
                Ok(false)
            }
        }
    }
}
