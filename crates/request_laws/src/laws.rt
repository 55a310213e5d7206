//! What a server reads of a client's frames. The law is a contract over all requests.
ghost use Rattle.std.specs.Prelude.{ℕ, List};
ghost use Rattle.serde_json.specs.Data.{Data};
ghost use Rattle.request_frames.specs.Requests.{request_frame};
ghost use Rattle.request_laws.specs.Hearing.{CanBeRead, IsHeardAs, request_read};

/// The frame of a request is whole, whatever follows it, and its body reads as this request, with its number and its
/// command. The number is one that every reader of JSON keeps; the value of the request can be spelled, without floats
/// and not too deep; and its text is no longer than a body may be. (DAP overview, Base protocol; DAP specification,
/// Base Protocol, Request)
pub fn a_request_is_read_of_its_frame()
    ensures { (seq : ℕ) (command : List ℕ) (arguments : Data) → CanBeRead seq command arguments →
        IsHeardAs (request_read seq command arguments) (request_frame seq command arguments) }
{}
