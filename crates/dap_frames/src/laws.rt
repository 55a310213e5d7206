//! What the frame at the front of a stream is, in the words of the protocol. Each law is a contract over all streams.
ghost use Rattle.std.specs.Prelude.{◌≡◌, ◌≤◌, ℕ, [], ◌∷◌, ◌++◌, ◌↔◌, List, length, codes, decimal};
ghost use Rattle.wire_core.specs.Streams.{waits, whole, faulty, uncut, fed, Uncut, HasNoWhole, Cuts, Reads, joined};
ghost use Rattle.dap_frames.specs.Frames.{Frame, frame_front, frame_bytes, Begins, IsFrame, IsUnfinished, IsRefused};
ghost use Rattle.dap_frames.specs.Faults.{causes, IsFirst};
ghost use Rattle.dap_frames.specs.declared.fault.FrameFault.{FrameFault};

/// A body is handed out just where the bytes begin with a frame of it.
pub fn found_is_a_frame()
    ensures { (bytes : List ℕ) (frame : Frame) (n : ℕ) → (frame_front bytes ≡ whole frame n) ↔ Begins bytes frame n }
{}

/// No frame is a proper prefix of another.
pub fn no_frame_begins_another()
    ensures { (text more body other : List ℕ) → IsFrame text body → IsFrame (text ++ more) other → more ≡ [] }
{}

/// Nothing is said yet just where the bytes are the beginning of a frame, within the bound on a header.
pub fn waits_for_a_frame()
    ensures { (bytes : List ℕ) → (frame_front bytes ≡ waits) ↔ IsUnfinished bytes }
{}

/// A fault stands at the first byte with which the bytes are the beginning of no frame, or at the 4,097th of a header,
/// and from then on.
pub fn refused_at_the_first_byte()
    ensures refused { (bytes : List ℕ) (fault : FrameFault) (place : ℕ) → frame_front bytes ≡ faulty fault place
        → IsRefused bytes fault place }
    ensures stays { (bytes more : List ℕ) (fault : FrameFault) (place : ℕ) → frame_front bytes ≡ faulty fault place
        → frame_front (bytes ++ more) ≡ faulty fault place }
{}

/// A byte is refused just where it is the first with which the bytes are the beginning of no frame, or the 4,097th of a
/// header, and for just the first of the six faults whose cause applies to it: the 4,097th byte of a header; a `\r` at
/// the start of a line, with no length said; the colon behind a second name `Content-Length`; the digit that brings a
/// length above 16,777,216; another byte that is none of a length; any other byte.
pub fn refused_for_the_first_cause()
    ensures { (before rest : List ℕ) (byte : ℕ) (fault : FrameFault)
        → (frame_front (before ++ byte ∷ rest) ≡ faulty fault (length before))
        ↔ (IsRefused (before ++ byte ∷ rest) fault (length before) × IsFirst causes fault before byte) }
{}

/// What `frame` writes of a body that a client may send is handed out again, whatever follows it.
pub fn written_is_found()
    ensures { (body more : List ℕ) → length body ≤ 16777216
        → frame_front (frame_bytes body ++ more)
        ≡ whole
        (record {
          header = length (codes "Content-Length: " ++ decimal (length body) ++ codes "\r\n\r\n");
          body = body;
        })
        (length (frame_bytes body)) }
{}

/// In whatever pieces a stream comes, the frames that are handed out are those of the whole stream, and no others are.
pub fn any_pieces()
    ensures handed { (pieces : List (List ℕ)) (frames : List (ℕ × Frame)) (left : Uncut)
        → Reads frame_front uncut pieces frames left
        → HasNoWhole (frame_front left.pending) → Cuts frame_front (fed uncut (joined pieces)) frames left }
    ensures only { (stream : Uncut) (frames others : List (ℕ × Frame)) (left rest : Uncut)
        → Cuts frame_front stream frames left
        → Cuts frame_front stream others rest → (frames ≡ others) × (left ≡ rest) }
{}
