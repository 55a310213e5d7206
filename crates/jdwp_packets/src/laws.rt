//! What stands at the front of a target's stream, in the words of the protocol. Each law is a contract over all
//! streams.
ghost use Rattle.std.specs.Prelude.{◌≡◌, ◌≢◌, ◌+◌, ◌<◌, ◌≤◌, ℕ, ◌++◌, ◌↔◌, ◌⊎◌, Bool, true, false, List, [], length};
ghost use Rattle.wire_core.specs.Streams.{waits, whole, faulty, Uncut, Cuts, left};
ghost use Rattle.jdwp_packets.specs.Packets.{Packet, packet_front, packet_bytes, Fits, Begins, AreBytes, IsSized};
ghost use Rattle.jdwp_packets.specs.Packets.{size_of, flags_of, greeting_front, handshake, IsGreeted, IsGreetingPart};
ghost use Rattle.jdwp_packets.specs.Packets.{Differs};
ghost use Rattle.jdwp_packets.specs.Receiving.{Received, nothing_received, received, received_front, left_behind};
ghost use Rattle.jdwp_packets.specs.Receiving.{handed, HandsOut};
ghost use Rattle.jdwp_packets.specs.declared.fault.PacketFault.{PacketFault};
ghost use Rattle.jdwp_packets.specs.declared.fault.PacketFault.TheVariants.{BadHandshake, ShortLength, TooLong};
ghost use Rattle.jdwp_packets.specs.declared.fault.PacketFault.TheVariants.{BadFlags};

/// A packet is handed out just where it is spelled at the front of the bytes, and it takes as many as its length says.
pub fn found_is_a_packet()
    ensures found { (bytes : List ℕ) (packet : Packet) (n : ℕ) → AreBytes bytes → packet_front bytes ≡ whole packet n
        → Begins bytes packet n }
    ensures only { (bytes : List ℕ) (packet : Packet) (n : ℕ) → Begins bytes packet n
        → packet_front bytes ≡ whole packet n }
{}

/// A wrong length is told just once four bytes are there, wrong flags just once nine are, each at the packet's first
/// byte and from then on.
pub fn faults_stand_at_the_packet()
    ensures short { (bytes : List ℕ)
        → (packet_front bytes ≡ faulty ShortLength 0) ↔ ((4 ≤ length bytes) × (size_of bytes < 11)) }
    ensures long { (bytes : List ℕ)
        → (packet_front bytes ≡ faulty TooLong 0) ↔ ((4 ≤ length bytes) × (67108864 < size_of bytes)) }
    ensures flags { (bytes : List ℕ) → (packet_front bytes ≡ faulty BadFlags 0)
        ↔ (IsSized bytes × (9 ≤ length bytes) × (flags_of bytes ≢ 0) × (flags_of bytes ≢ 128)) }
    ensures place { (bytes : List ℕ) (fault : PacketFault) (place : ℕ) → packet_front bytes ≡ faulty fault place
        → (place ≡ 0) × ((fault ≡ ShortLength) ⊎ ((fault ≡ TooLong) ⊎ (fault ≡ BadFlags))) }
    ensures stays { (bytes more : List ℕ) (fault : PacketFault) (place : ℕ) → packet_front bytes ≡ faulty fault place
        → packet_front (bytes ++ more) ≡ faulty fault place }
{}

/// A packet that is written is handed out again, whatever follows it.
pub fn written_is_found()
    ensures { (packet : Packet) (more : List ℕ) → Fits packet
        → packet_front (packet_bytes packet ++ more) ≡ whole packet (length (packet_bytes packet)) }
{}

/// The greeting is the 14 bytes of the handshake, and it is refused at the first byte that differs, once that is there.
pub fn greeting_is_the_handshake()
    ensures greeted { (bytes : List ℕ) (n : ℕ) → (greeting_front bytes ≡ whole tt n) ↔ ((n ≡ 14) × IsGreeted bytes) }
    ensures waits { (bytes : List ℕ) → (greeting_front bytes ≡ waits) ↔ IsGreetingPart bytes }
    ensures refused { (bytes : List ℕ) (fault : PacketFault) (place : ℕ) → (greeting_front bytes ≡ faulty fault place)
        ↔ ((fault ≡ BadHandshake) × Differs handshake bytes place) }
{}

/// In whatever pieces a stream comes, and whenever packets are taken from it, those that were handed out are the
/// packets of all that came, behind the greeting, and no others are.
pub fn any_pieces()
    ensures begins { HandsOut [] [] nothing_received.greeted nothing_received.stream }
    ensures feeds { (bytes piece : List ℕ) (packets : List (ℕ × Packet)) (old : Received)
        → HandsOut bytes packets old.greeted old.stream
        → HandsOut (bytes ++ piece) packets (received old piece).greeted (received old piece).stream }
    ensures takes { (bytes : List ℕ) (packets : List (ℕ × Packet)) (old : Received)
        → HandsOut bytes packets old.greeted old.stream
        → HandsOut bytes (packets ++ handed (received_front old.greeted old.stream.pending) old.stream.at)
        (left_behind old).greeted (left_behind old).stream }
    ensures only { (stream : Uncut) (packets others : List (ℕ × Packet)) (rest other_rest : Uncut)
        → Cuts packet_front stream packets rest
        → Cuts packet_front stream others other_rest → (packets ≡ others) × (rest ≡ other_rest) }
{}
