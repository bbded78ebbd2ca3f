//! Answers compared.
ghost use Rattle.std.specs.Prelude.{◌≡◌, ◌↔◌, IsTrue};

use obj_id::{GrantedItem, OwnItem, Reply};

/// Whether the answers are the same.
pub(crate) fn same_reply(had: &Reply<u64>, due: &Reply<u64>) -> bool
    ensures { IsTrue result ↔ (had.now ≡ due.now) }
{
    match (had, due) {
        (Reply::List(own, granted), Reply::List(other_own, other_granted)) => {
            same_own(own.as_slice(), other_own.as_slice())
                && same_granted(granted.as_slice(), other_granted.as_slice())
        }
        _ => had == due,
    }
}

/// Whether the own items are the same.
fn same_own(items: &[OwnItem], others: &[OwnItem]) -> bool
    ensures { IsTrue result ↔ (items.now ≡ others.now) }
{
    items == others
}

/// Whether the granted items are the same.
fn same_granted(items: &[GrantedItem], others: &[GrantedItem]) -> bool
    ensures { IsTrue result ↔ (items.now ≡ others.now) }
{
    items == others
}
