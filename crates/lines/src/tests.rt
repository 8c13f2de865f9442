// The parts of a text, up to the last, whatever stands between them.
use crate::{Parts, SignedParts};

#[test]
fn a_text_is_parted_at_each_sign(rt: HostRuntime) {
    let mut parts = Parts::of(b"a, b, ", b", ");
    assert!(rt; matches!(parts.next(), Some(part) if part == b"a".as_slice()));
    assert!(rt; matches!(parts.next(), Some(part) if part == b"b".as_slice()));
    assert!(rt; matches!(parts.next(), Some(part) if part.is_empty()));
    assert!(rt; parts.next().is_none());
}

#[test]
fn a_sign_of_no_bytes_parts_nothing(rt: HostRuntime) {
    let mut parts = Parts::of(b"a, b", b"");
    assert!(rt; matches!(parts.next(), Some(part) if part == b"a, b".as_slice()));
    assert!(rt; parts.next().is_none());
}

#[test]
fn a_sign_that_is_there_parts_as_any(rt: HostRuntime) {
    let mut parts = SignedParts::of(b"a, b", b", ");
    assert!(rt; matches!(parts.next(), Some(part) if part == b"a".as_slice()));
    assert!(rt; matches!(parts.next(), Some(part) if part == b"b".as_slice()));
    assert!(rt; parts.next().is_none());
}
