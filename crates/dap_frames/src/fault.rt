use thiserror::Error;

/// Why a byte of the client's stream is refused (DAP overview, Base protocol).
#[derive(Clone, Copy, Debug, PartialEq, Eq, Error)]
pub enum FrameFault {
    /// The header ends, and no `Content-Length` was in it.
    #[error("a header without a Content-Length")]
    NoLength,
    /// A header has a second `Content-Length`.
    #[error("a header with two lengths")]
    TwoLengths,
    /// The value of a `Content-Length` isn't 1 to 10 digits.
    #[error("a length that is no number")]
    BadLength,
    /// A length above 16,777,216.
    #[error("a body that is too long")]
    TooLong,
    /// A header of more than 4,096 bytes.
    #[error("a header that is too long")]
    HeaderTooLong,
    /// Any other byte that no header may have at its place.
    #[error("a header that is none")]
    BadHeader,
}

/// A refused byte: why, and its offset in the stream.
#[derive(Clone, Copy, Debug, PartialEq, Eq)]
pub struct FrameTrouble {
    pub fault: FrameFault,
    pub at: u64,
}
