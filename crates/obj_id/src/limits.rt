//! The limits of a store: bytes, and numbers of things. Each is a job's own, but for the last four, which are a
//! node's and a cluster's.

/// The bytes of the longest object.
pub const LONGEST_OBJECT: u32 = 16_777_216;

/// The bytes of the smallest window. A window's bytes are a multiple of it, and so is each offset within one.
pub const UNIT: u64 = 16;

/// The bytes of the widest window.
pub const WIDEST_WINDOW: u64 = 268_435_456;

/// The bytes of the greatest device quota.
pub const GREATEST_DEVICE_QUOTA: u64 = 1_099_511_627_776;

/// The bytes that one Write, Read or Peek may carry.
pub const MOST_BYTES: usize = 65_536;

/// The bytes of a chunk. An object's last one may be shorter.
pub const CHUNK_SIZE: u32 = 65_536;

/// Copies of a job at a node, doomed ones and fetches among them.
pub const MOST_COPIES: usize = 1_024;

/// Device works of a job in flight at a node.
pub const MOST_WORKS: usize = 8;

/// Holds on a copy, of all sessions together.
pub const MOST_HOLDS: u32 = 64;

/// Borrowers of a copy.
pub const MOST_BORROWERS: usize = 64;

/// Grants that a job has given at a node and that stand.
pub const MOST_GRANTS: usize = 64;

/// The depth of the deepest grant: an object's own job gives grants of depth 1, and each that hangs on one is one deeper.
pub const GREATEST_DEPTH: u32 = 3;

/// Ended tasks of a job that a node remembers.
pub const MOST_ENDED_TASKS: usize = 1_024;

/// Live jobs at a node.
pub const MOST_LIVE_JOBS: usize = 64;

/// Nodes of a cluster.
pub const MOST_NODES: u32 = 8;

/// The bytes of the largest memory of a node.
pub const LARGEST_MEMORY: u64 = 17_179_869_184;
