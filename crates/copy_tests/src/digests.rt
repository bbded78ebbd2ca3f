//! Digests that are known ahead: values from outside (FIPS 180-4).
use assertions::same;
use bytes::Bytes;
use hashed_bytes::{Hashed, digest_by};
use obj_id::Digest;
use std::test::Fail;

/// The digest of "abc".
const OF_ABC: [u8; 32] = [
    0xba, 0x78, 0x16, 0xbf, 0x8f, 0x01, 0xcf, 0xea, 0x41, 0x41, 0x40, 0xde, 0x5d, 0xae, 0x22, 0x23,
    0xb0, 0x03, 0x61, 0xa3, 0x96, 0x17, 0x7a, 0x9c, 0xb4, 0x10, 0xff, 0x61, 0xf2, 0x00, 0x15, 0xad,
];

#[test]
fn a_digest_is_that_of_its_bytes(rt: HostRuntime) -> Result<(), Fail> {
    let abc = Hashed::new(Bytes::from_static(b"abc"));
    let abd = Hashed::new(Bytes::from_static(b"abd"));
    same!(rt; abc.digest(), Digest(OF_ABC));
    same!(rt; digest_by(b"abc", None), Digest(OF_ABC));
    same!(rt; digest_by(b"abc", Some(&abc)), Digest(OF_ABC));
    same!(rt; digest_by(b"abc", Some(&abd)), Digest(OF_ABC));
    Ok(())
}
