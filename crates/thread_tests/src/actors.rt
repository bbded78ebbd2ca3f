//! Those that call nodes in tests.
ghost use Rattle.std.specs.Prelude.{◌≡◌, []};

use node_gate::{Actor, SeatedNode};
use node_journal::Recorded;
use std::marker::Brand;

/// One that has made no step. Any name gives the leave to make it.
pub(crate) fn actor() -> Actor
    ensures { result ≡ [] }
{
    <Recorded<Brand, Brand> as SeatedNode>::actors().actor()
}
