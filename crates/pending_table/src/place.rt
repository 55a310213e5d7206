ghost use Rattle.std.specs.Prelude.{◌≡◌, ◌==◌, position, is_some};
ghost use Rattle.pending_table.specs.Windows.{pending_under, place_under, without};
ghost use Rattle.pending_table.specs.Places.{sent_in};

use arrayvec::ArrayVec;
use jdwp_commands::{Asked, Effect};

/// How many commands may wait.
pub(crate) const MOST: usize = 16;

/// A command that waits for its reply, and its id.
#[derive(Debug, Drop)]
pub(crate) struct Sent {
    pub(crate) id: u32,
    pub(crate) asked: Asked,
}

/// What a place holds in which no command waits.
impl Default for Sent {
    fn default() -> Sent {
        Sent {
            id: 0,
            asked: Asked::Effect(Effect::Suspend),
        }
    }
}

// The first place that the command of this id stands at.
fn place_of(sent: &[Sent], id: u32) -> Option<usize>
    ensures { result ≡ position (λ command. command.id == id) sent.now }
{
    sent.iter().position(|command| command.id == id)
}

/// The place among the commands that wait of the one of this id.
pub(crate) fn place(sent: &[Sent], id: u32) -> Option<usize>
    ensures { result ≡ place_under id (sent_in sent.now) }
{
    place_of(sent, id)
}

/// Whether a command of this id waits.
pub(crate) fn waits(sent: &[Sent], id: u32) -> bool
    ensures { result ≡ is_some (pending_under id (sent_in sent.now)) }
{
    place_of(sent, id).is_some()
}

/// Takes the command of this id out; those behind it move up, so that all stay in the order in which they were sent.
pub(crate) fn take_out(sent: &mut ArrayVec<Sent, MOST>, id: u32) -> Option<Asked>
    ensures taken { result ≡ pending_under id (sent_in sent.old.items) }
    ensures others { sent_in sent.new.items ≡ without id (sent_in sent.old.items) }
{
    let at = place_of(sent.as_slice(), id)?;
    Some(sent.remove(at).asked)
}
