//! The sizes of ids, as the target said them.
ghost use Rattle.std.specs.Prelude.{◌≡◌, option_map};
ghost use Rattle.machine_model.specs.Replying.{sizes_in};
ghost use Rattle.session_facts.specs.Sizes.{sizes_seen};

use jdwp_commands::{Answer, Replied};

/// How many bytes an id of each kind takes, as the target said (JDWP, VirtualMachine command set, IDSizes).
#[derive(Clone, Copy)]
pub struct SizesRead {
    pub field: u32,
    pub method: u32,
    pub object: u32,
    pub class: u32,
    pub frame: u32,
}

/// The sizes in a reply.
pub fn sizes_in(replied: &Replied) -> Option<SizesRead>
    ensures { option_map sizes_seen result ≡ sizes_in replied.now }
{
    match replied {
        Replied::Answer(
            Answer::IdSizes {
                field,
                method,
                object,
                class,
                frame,
            },
        ) => Some(SizesRead {
            field: *field,
            method: *method,
            object: *object,
            class: *class,
            frame: *frame,
        }),
        _ => None,
    }
}
