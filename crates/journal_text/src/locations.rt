//! The entries of a Located.
ghost use Rattle.std.specs.Prelude.{◌≡◌, ◌↔◌, IfOk, IfSome, IsTrue, map};
ghost use Rattle.hex.specs.Hex.{encode_lower};
ghost use Rattle.schedule_text.specs.Fields.{Reads};
ghost use Rattle.journal_text.specs.Each.{IsEach};
ghost use Rattle.journal_text.specs.Locations.{IsDigest, IsDigestField, IsLocated, IsLocation, IsLocationOf, IsLocationParts, parts_of as parts_of_lem};
ghost use Rattle.obj_id.specs.declared.messages.Digest.{Digest};

use crate::fields::fetch;
use hex::FromHex;
use memory_growth::{OutOfMemory, lists};
use obj_id::{Digest, ItemList, JobNo, Location, ObjectId};
use schedule_text::fields::number;
use std::alloc::Global;

/// `ID NUMBER`, then each entry in a field of its own.
pub(crate) fn located(
    alloc: Global,
    fields: &[&str],
    job: JobNo,
) -> Result<Option<((ObjectId, u64), ItemList<Location>)>, OutOfMemory>
    ensures { IfOk result (λ read. Reads read
        (IsLocated job.0 (map (λ field. field.now) fields.now))) }
{
    let [id, number, fields @ ..] = fields else {
        return Ok(None)
    };
    let Some(entries) = locations(alloc, fields)? else {
        return Ok(None)
    };
    let Some(fetch) = fetch(id, number, job) else {
        return Ok(None)
    };
    Ok(Some((fetch, entries)))
}

/// An entry of each field.
fn locations(alloc: Global, fields: &[&str]) -> Result<Option<ItemList<Location>>, OutOfMemory>
    ensures { IfOk result (λ entries. Reads entries
        (IsEach IsLocation (map (λ field. field.now) fields.now))) }
{
    let mut entries = ItemList::new(alloc);
    for field in fields {
        let Some(entry) = location(alloc, field)? else {
            return Ok(None);
        };
        entries.push(entry)?;
    }
    Ok(Some(entries))
}

/// `NODE:LEN:DIGEST`.
fn location(alloc: Global, field: &str) -> Result<Option<Location>, OutOfMemory>
    ensures { IfOk result (λ entry. Reads entry (IsLocation field.now)) }
{
    let parts = parts_of(alloc, field)?;
    Ok(location_parts(&parts))
}

/// What stands between the colons of a field.
pub(crate) fn parts_of(alloc: Global, field: &str) -> Result<Vec<&str>, OutOfMemory>
    ensures { IfOk result (λ parts.
        map (λ part. part.now) parts.items ≡ parts_of_lem field.now) }
{
    lists::collected(alloc, field.split(':'))
}

/// `NODE:LEN:DIGEST`, by its parts.
fn location_parts(parts: &[&str]) -> Option<Location>
    ensures { Reads result (IsLocationParts (map (λ part. part.now) parts.now)) }
{
    let [node, length, digest] = parts else {
        return None
    };
    location_of(node, length, digest)
}

/// Node, length and digest, each in its part.
fn location_of(at: &str, bytes: &str, digits: &str) -> Option<Location>
    ensures { Reads result (IsLocationOf at.now bytes.now digits.now) }
{
    let node = number(at)?;
    let length = number(bytes)?;
    let digest = digest(digits)?;
    Some(Location {
        node,
        length,
        digest,
    })
}

/// The digest whose 64 digits these are, in lower case.
fn digest(text: &str) -> Option<Digest>
    ensures { Reads result (IsDigestField text.now) }
{
    digest_of(text)
}

/// The digest whose digits the text is, with each thing that is known of it.
fn digest_of(text: &str) -> Option<Digest>
    ensures digest { IfSome result IsDigest }
    ensures spelled { IfSome result (λ digest. encode_lower digest.0 ≡ text.now) }
    ensures read { (digest : Digest) → IsDigest digest → encode_lower digest.0 ≡ text.now
        → result ≡ Some digest }
{
    let Ok(bytes) = <[u8; 32]>::from_hex(text) else {
        return None;
    };
    if !is_lower_case(&bytes, text) {
        return None;
    }
    Some(Digest(bytes))
}

/// Whether the text is the bytes in digits of lower case.
fn is_lower_case(bytes: &[u8; 32], text: &str) -> bool
    ensures { IsTrue result ↔ (encode_lower bytes.now ≡ text.now) }
{
    let mut digits = [0; 64];
    hex::encode_to_slice(*bytes, &mut digits).is_ok() && digits.as_slice() == text.as_bytes()
}
