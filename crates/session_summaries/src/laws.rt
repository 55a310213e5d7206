//! What a summary is of. The law is a contract over all bytes.
ghost use Rattle.std.specs.Prelude.{◌≡◌, ℕ, List, map};
ghost use Rattle.wire_core.specs.Streams.{Cuts, Uncut, fed, uncut};
ghost use Rattle.dap_frames.specs.Frames.{Frame, frame_front};
ghost use Rattle.session_summaries.specs.Bodies.{bodies_of};

/// The bodies that are summed up are those of all frames that some bytes are cut into (DAP overview, Base protocol).
pub fn bodies_are_those_of_the_frames()
    ensures { (bytes : List ℕ) (frames : List (ℕ × Frame)) (left : Uncut)
        → Cuts frame_front (fed uncut bytes) frames left → bodies_of bytes ≡ map (λ frame. frame.1.body) frames }
{}
