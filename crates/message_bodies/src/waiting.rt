//! The items that wait for their turn.
ghost use Rattle.std.specs.Prelude.{◌≡◌, ◌<◌, None, length, position, set, Some, IfNone, IfSome};
ghost use Rattle.machine_model.specs.Due.{pick};
ghost use Rattle.machine_model.specs.Runs.{is_disconnect};
ghost use Rattle.machine_model.specs.State.{is_raw};
ghost use Rattle.message_bodies.specs.Waiting.{is_next};

use dap_messages::Command;
use machine_model::Item;
use std::collections::VecDeque;

/// Whether the command ends the session (DAP specification, Disconnect request).
pub fn is_disconnect(command: &Command) -> bool
    ensures { result ≡ is_disconnect command.now }
{
    matches!(command, Command::Disconnect(_))
}

// A composite whose body can't be read yet.
fn is_raw(item: &Item) -> bool
    ensures { result ≡ is_raw item.now }
{
    matches!(item, Item::Raw { .. })
}

/// The place of the first composite that is kept.
pub(crate) fn first_kept(waiting: &VecDeque<Item>) -> Option<usize>
    ensures { result ≡ position is_raw waiting.now.items }
{
    waiting.iter().position(is_raw)
}

/// The item at this place becomes this one.
pub(crate) fn put_at(waiting: &mut VecDeque<Item>, place: usize, item: Item)
    requires { place < length waiting.old.items }
    ensures { waiting.new.items ≡ set waiting.old.items place item }
{
    waiting[place] = item;
}

// The place of the item that is next: the first one, but for composites that can't be read yet while there is a target.
fn next_place(gone: bool, waiting: &VecDeque<Item>) -> Option<usize>
    ensures { result ≡ position (is_next gone) waiting.now.items }
{
    waiting.iter().position(|item| gone || !is_raw(item))
}

/// Takes the item that is next.
#[tactic(auto, using(crate::proofs::PickLaws::picks, crate::proofs::PickLaws::picks_none))]
pub fn take_next(gone: bool, waiting: &mut VecDeque<Item>) -> Option<Item>
    ensures none { IfNone result (pick gone waiting.old.items ≡ None) }
    ensures same { IfNone result (waiting.new.items ≡ waiting.old.items) }
    ensures some { IfSome result (λ item. pick gone waiting.old.items
        ≡ Some (record { item = item; rest = waiting.new.items })) }
{
    let place = next_place(gone, waiting)?;
    waiting.remove(place)
}
