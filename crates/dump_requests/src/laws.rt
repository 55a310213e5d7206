//! What holds of the requests of all conversations. Each law is a contract over all conversations and frames.
ghost use Rattle.std.specs.Prelude.{◌≡◌, ◌<◌, ◌^◌, ◌+◌, ℕ, List, Some};
ghost use Rattle.dump_client.specs.Conversing.{asked, heard, request_due, start};
ghost use Rattle.dump_client.specs.declared.conversation.Conversation.{Conversation as TheConversation};
ghost use Rattle.dump_requests.specs.Bounds.{IsInBounds, request_meant};
ghost use Rattle.dump_wires.specs.Talking.{Talks};
ghost use Rattle.machine_model.specs.Runs.{Message};
ghost use Rattle.request_laws.specs.Hearing.{IsHeardAs};
ghost use Rattle.session_endings.specs.Limits.{AreLimits};
ghost use Rattle.session_endings.specs.declared.ending.ClientFault.{ClientFault};
ghost use Rattle.session_endings.specs.declared.ending.Ending.{Ending};
ghost use Rattle.session_endings.specs.declared.ending.Ending.TheVariants.{BadClient};
ghost use Rattle.session_endings.specs.declared.ending.Limits.{Limits};
ghost use Rattle.session_model.specs.Session.{IsLeft};
ghost use Rattle.wire_core.specs.declared.outside.Entry.{Entry};

/// The frame of each request that is due is whole, whatever follows it, and its body reads as the request that is
/// meant: by its number, its command and its arguments. (DAP overview, Base protocol; DAP specification, Requests)
pub fn each_request_of_a_dump_is_read()
    ensures { (most : ℕ) (c : TheConversation) (frame : List ℕ) → most < 2 ^ 53 → IsInBounds most c
        → request_due c ≡ Some frame → IsHeardAs (request_meant c) frame }
{}

/// The numbers that a conversation keeps and asks with have 64 bits, whatever it hears. With each request that is made
/// the number of the next one grows by one at most, and by nothing else. (DAP specification, Base Protocol,
/// ProtocolMessage)
pub fn a_conversation_stays_in_its_bounds()
    ensures begins { IsInBounds 1 start }
    ensures asks { (most : ℕ) (c : TheConversation) → IsInBounds most c → IsInBounds (most + 1) (asked c) }
    ensures hears { (most : ℕ) (c : TheConversation) (frame : List ℕ) → IsInBounds most c
        → IsInBounds most (heard frame c) }
{}

/// A session whose client sends the requests of a dump, each where it is due, never ends by a fault of the client's
/// bytes: within its limits a session has too few turns for a request whose number no reader would keep. (DAP overview,
/// Base protocol; DAP specification, Base Protocol, ProtocolMessage)
pub fn no_request_of_a_dump_ends_a_session()
    ensures { (limits : Limits) (log : List Entry) (messages : List Message) (turns : ℕ) (ending : Ending)
        (c : TheConversation) (fault : ClientFault) (offset : ℕ) → AreLimits limits
        → IsLeft limits log messages turns ending → Talks start log c → ¬ (ending ≡ BadClient fault offset) }
{}
