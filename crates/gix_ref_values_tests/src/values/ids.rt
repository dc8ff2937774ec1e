//! Ids and their hex digits.
use gix_ref_hash::hash::{Kind, hex_hash, hex_hash_any};

#[test]
fn digits_at_the_front(rt: HostRuntime) {
    let text = b"1111111111111111111111111111111111111111 x".as_slice();
    let mut input = text;
    assert!(rt;
        hex_hash(&mut input, Kind::Sha256).is_none(),
        "too few for SHA-256"
    );
    assert!(rt; input == text, "the input is left");
    assert!(rt; hex_hash(&mut input, Kind::Sha1).is_some(), "a SHA-1");
    assert!(rt; input == b" x".as_slice(), "what follows it");
    let mut input = text;
    assert!(rt; hex_hash_any(&mut input).is_some(), "of any kind");
    assert!(rt; input == b" x".as_slice(), "what follows it");
}
