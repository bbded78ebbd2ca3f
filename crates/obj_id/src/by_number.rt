//! What goes by a number alone: a node, a fetch of a job and a chunk of an object. A contract sees the number.
use std::marker::Model;

/// A node of the cluster, by its number: each number of 32 bits may be one.
#[derive(Clone, Copy, Debug, PartialEq, Eq)]
pub struct NodeNo(pub u32);

impl Model for NodeNo {
    ghost use Rattle.std.specs.Prelude.{ℕ};

    ghost Value = { ℕ };

    ghost view = { λ node. node.0 };

    ghost inverse = { λ node. record { 0 = node } };
}

/// A fetch of a job at the node that fetches, by its number there. The job's first fetch is 1, and no number comes again.
#[derive(Clone, Copy, Debug, PartialEq, Eq)]
pub struct FetchNo(pub u64);

impl Model for FetchNo {
    ghost use Rattle.std.specs.Prelude.{ℕ};

    ghost Value = { ℕ };

    ghost view = { λ number. number.0 };

    ghost inverse = { λ number. record { 0 = number } };
}

/// A chunk of an object, by its index, from 0: the object's bytes from 65,536 times the index on. A message may have any
/// index of 32 bits, and none of an object is above 255.
#[derive(Clone, Copy, Debug, PartialEq, Eq)]
pub struct ChunkIndex(pub u32);

impl Model for ChunkIndex {
    ghost use Rattle.std.specs.Prelude.{ℕ};

    ghost Value = { ℕ };

    ghost view = { λ index. index.0 };

    ghost inverse = { λ index. record { 0 = index } };
}
