ghost use Rattle.std.specs.Prelude.{◌≡◌};
ghost use Rattle.script_worlds.specs.Growing.{empty_world};

use jdwp_values::IdSizes;
use std::alloc::Global;
use wire_core::List;
use world_model::World;

/// A world of which nothing was said but how many bytes ids take. It takes no memory.
pub fn empty_world(alloc: Global, sizes: IdSizes) -> World
    ensures { result ≡ empty_world sizes }
{
    World {
        sizes,
        classes: List::new(alloc),
        methods: List::new(alloc),
        variables: List::new(alloc),
        fields: List::new(alloc),
        objects: List::new(alloc),
        arrays: List::new(alloc),
        strings: List::new(alloc),
        puts: List::new(alloc),
        threads: List::new(alloc),
        frames: List::new(alloc),
        requests: List::new(alloc),
        steps: List::new(alloc),
        next_request: 1,
        count: 0,
        dead: false,
    }
}
