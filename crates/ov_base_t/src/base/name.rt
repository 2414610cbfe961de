//! Names, and texts that are none.

use ov_base::Name;

const NAMES: [&[u8]; 7] = [b"a", b"7", b"alice", b"f1", b"a.b_c-d", b"0-", &[b'a'; 64]];

const OTHERS: [&[u8]; 14] = [
    b"",
    b"Bob",
    b"aB",
    b".a",
    b"_a",
    b"-a",
    b"a b",
    b"a\n",
    b"a/b",
    b"a\xc3\xa9",
    b"a`",
    b"a{",
    b"a:",
    &[b'a'; 65],
];

#[test]
fn names_and_others(rt: HostRuntime) {
    for text in NAMES {
        let name = Name::read(text).expect(&rt, "a name");
        assert_eq!(rt; name.as_bytes(), text);
        assert_eq!(rt; name.copy().as_bytes(), text);
        assert!(rt; name == name.copy());
    }
    for text in OTHERS {
        assert!(rt; Name::read(text).is_none());
    }
}
