//! Digests of short texts, as the authors of FNV publish them.
use crate::digest::Digest;

#[test]
fn published_digests(rt: HostRuntime) {
    for (text, digest) in [
        ("", 0xcbf2_9ce4_8422_2325u64),
        ("a", 0xaf63_dc4c_8601_ec8c),
        ("foobar", 0x8594_4171_f739_67e8),
    ] {
        let made = text
            .as_bytes()
            .iter()
            .fold(Digest::new(), |made, byte| made.byte(*byte));
        assert_eq!(rt; made.0, digest);
    }
}
