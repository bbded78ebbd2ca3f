//! What the end of a job leaves to be erased.
ghost use Rattle.std.specs.Prelude.{◌≡◌, map, IfOk};
ghost use Rattle.private_store.specs.rules.Tables.{ids_of};
ghost use Rattle.job_row.specs.Ending.{key_at, keys_backed};
ghost use Rattle.row_steps.specs.Erased.{keys_of};

use crate::hold_commands::push_key;
use job_row::JobRow;
use memory_growth::{OutOfMemory, lists};
use obj_id::{DeviceKey, ItemList, ObjectId, OwnItem};
use row_steps::Erase;
use std::alloc::Global;

/// The device keys of its backed copies, in order of id. Takes a walk over the copies, a sort, and
/// memory for each; out of memory it leaves all as it was.
pub fn device_keys(row: &JobRow, alloc: Global) -> Result<Erase, OutOfMemory>
    ensures { IfOk result (λ erase. keys_of erase ≡ keys_backed row.now (ids_of row.now.copies)) }
{
    let items = row.copies().items(alloc)?;
    Ok(Erase::Many(keys_each(row, alloc, items.as_slice())?))
}

/// The device keys of those of these copies that are backed.
fn keys_each(
    row: &JobRow,
    alloc: Global,
    items: &[OwnItem],
) -> Result<ItemList<DeviceKey>, OutOfMemory>
    ensures { IfOk result (λ keys. keys ≡ keys_backed row.now (map (λ item. item.id) items.now)) }
{
    let mut keys = lists::with_room_for(alloc, items)?;
    for item in items {
        push_key(&mut keys, device_key(row, &item.id));
    }
    Ok(ItemList::from_vec(keys))
}

/// The device key of the copy, if it is backed.
pub(crate) fn device_key(row: &JobRow, id: &ObjectId) -> Option<DeviceKey>
    ensures { result ≡ key_at row.now id.now }
{
    let number = row.copies().get(id)?.backed()?;
    Some(DeviceKey {
        job: row.job(),
        number,
    })
}
