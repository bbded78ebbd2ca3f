//! A place in the window of a row.
use obj_id::{Extent, ItemList, ObjectId};

/// Where an object goes in the window.
#[derive(Drop)]
pub struct Placement {
    /// The copies that are to be evicted for it, in this order and perhaps none.
    pub victims: ItemList<ObjectId>,
    /// Their extents, by rising offset.
    pub gone: Vec<Extent>,
    /// Where it fits first once they are evicted.
    pub offset: u64,
}
