//! Why a question is sent. Each law is the contract of a function that does nothing.

ghost use Rattle.asking_laws.specs.Asking.{AsksWhatLacks};

/// A question that is sent wasn't sent before for the item in hand, and has been lacking since it was put to be asked:
/// the part in front lacked it then, by the replies until then, and is in front still. Since then the target refused
/// nothing that the item can't do without: so a look-up that has failed asks nothing more. Unless all classes were
/// listed since, or the sizes of ids told, the question is lacking now, by the replies so far; or the look-up in front
/// has failed all the same, by an error that came before, or to what another part could do without (JDWP, Detailed
/// Command Information; JDWP, JDWP Packets, reply packet, error code).
pub fn what_is_asked_has_been_lacking()
    ensures { AsksWhatLacks }
{}
