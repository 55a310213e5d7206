//! Chains of classes.
ghost use Rattle.std.specs.Prelude.{◌≡◌, option_copied, find, position, ◌==◌};
ghost use Rattle.std.specs.List.{list_any};
ghost use Rattle.world_model.specs.Sound.{ends};
ghost use Rattle.target_scripts.specs.Chains.{comes_to, is_open, goes_on, first_open, line_of_class, chain_fault};

use crate::building::Building;
use jdwp_values::ClassId;
use world_model::WorldClass;

// The class with an id, if it is there.
fn class_among(classes: &[WorldClass], class: ClassId) -> Option<&WorldClass>
    ensures { option_copied result ≡ find (λ row. row.id.0 == class.0) classes.now }
{
    classes.iter().find(|row| row.id.0 == class.0)
}

// Whether a class is reached from another one, or from one above it.
fn comes_to(classes: &[WorldClass], from: ClassId, to: ClassId) -> bool
    ensures { result ≡ comes_to classes.now classes.now from to }
{
    let mut class = from;
    for _step in classes {
        if class.0 == to.0 {
            return true;
        }
        let Some(row) = class_among(classes, class) else {
            return false;
        };
        class = row.above;
    }
    false
}

// Whether the chain from a class ends.
fn ends(classes: &[WorldClass], class: ClassId) -> bool
    ensures { result ≡ ends classes.now classes.now class }
{
    let mut class = class;
    for _step in classes {
        if class.0 == 0 {
            return true;
        }
        let Some(row) = class_among(classes, class) else {
            return false;
        };
        class = row.above;
    }
    class.0 == 0
}

// Whether a class is there.
fn is_among(classes: &[WorldClass], class: ClassId) -> bool
    ensures { result ≡ list_any (λ other. other.id.0 == class.0) classes.now }
{
    classes.iter().any(|other| other.id.0 == class.0)
}

// Whether no line gives the class above a class, or the chain from it returns to it.
#[tactic(auto, unfolding(crate::specs::Chains::is_open))]
fn is_open(classes: &[WorldClass], row: &WorldClass) -> bool
    ensures { result ≡ is_open classes.now row.now }
{
    !(row.above.0 == 0) && (!is_among(classes, row.above) || comes_to(classes, row.above, row.id))
}

// Whether the chain from a class doesn't end.
fn goes_on(classes: &[WorldClass], row: &WorldClass) -> bool
    ensures { result ≡ goes_on classes.now row.now }
{
    !ends(classes, row.id)
}

// The first class that is open, by its place.
fn open_place(classes: &[WorldClass]) -> Option<usize>
    ensures { result ≡ position (is_open classes.now) classes.now }
{
    classes.iter().position(|row| is_open(classes, row))
}

// The first class whose chain doesn't end, by its place.
fn endless_place(classes: &[WorldClass]) -> Option<usize>
    ensures { result ≡ position (goes_on classes.now) classes.now }
{
    classes.iter().position(|row| goes_on(classes, row))
}

// The first class whose chain is at fault, by its place.
fn first_open(classes: &[WorldClass]) -> Option<usize>
    ensures { result ≡ first_open classes.now }
{
    match open_place(classes) {
        Some(place) => Some(place),
        None => endless_place(classes),
    }
}

// The line of a class, by that of the first one and its place.
fn line_of_class(first: u32, place: usize) -> u32
    ensures { result ≡ line_of_class first place }
{
    let most = u32::MAX - first;
    if place < most as usize {
        place as u32 + first
    } else {
        u32::MAX
    }
}

/// The line of the first class whose chain is at fault.
pub fn chain_fault(building: &Building) -> Option<u32>
    ensures { result ≡ chain_fault building.now }
{
    let place = first_open(building.script.world.classes.as_slice())?;
    Some(line_of_class(building.first_class, place))
}
