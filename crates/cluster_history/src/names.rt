//! Which history it is.
use std::marker::Brand;

/// What a cluster is: how many nodes it has, and how many bytes of memory each of them. Each server picks it before it opens a history.
pub trait ClusterShape {
    ghost use Rattle.std.specs.Prelude.{ℕ};

    ghost nodes: { ℕ };

    ghost memory: { ℕ };
}

/// Which book a history is kept in. Each server picks it once it has opened one.
pub trait HistoryName {
    ghost use Rattle.logbook.specs.Pages.{Book};

    ghost book: { Book };
}

impl ClusterShape for Brand {
    ghost nodes = { 0 };

    ghost memory = { 0 };
}

impl HistoryName for Brand {
    ghost book = { record { number = 0; log_name = 0; cells_name = 0 } };
}
