//! Which places a world has.
ghost use Rattle.std.specs.Prelude.{◌≡◌};
ghost use Rattle.world_core.specs.Worlds.{is_within as is_within_lem, is_place as is_place_lem};

use obj_id::Endpoint;
use private_store::Step;

/// Whether a world of so many nodes has the node of an event, or the place to which a message is delivered.
pub fn is_within(nodes: u32, step: &Step) -> bool
    ensures { result ≡ is_within_lem nodes step.now }
{
    match step {
        Step::At(place, _) => *place < nodes,
        Step::Deliver { to, .. } => is_place(nodes, *to),
    }
}

/// Whether the place is there, in a world of so many nodes.
fn is_place(nodes: u32, place: Endpoint) -> bool
    ensures { result ≡ is_place_lem nodes place }
{
    match place {
        Endpoint::Node(node) => node < nodes,
        Endpoint::Directory => true,
    }
}
