//! Lists of names.

use ov_base::{Name, Names};
use std::test::Fail;

/// Inserts the name of this text. Whether it is new is answered by what comes of it, and by what the
/// list says before.
fn insert(names: &mut Names, text: &[u8]) -> Result<(bool, bool), Fail> {
    let name = Name::read(text).ok_or("a name")?;
    let fresh = !names.contains(&name);
    let inserted = names.insert(name)?;
    Ok((inserted, fresh))
}

#[test]
fn a_name_counts_once(rt: HostRuntime) -> Result<(), Fail> {
    let mut names = Names::new(rt.alloc());
    for text in [b"b", b"a", b"b", b"c", b"a"] {
        let (inserted, fresh) = insert(&mut names, text)?;
        assert_eq!(rt; inserted, fresh);
    }
    assert_eq!(rt; names.as_slice().len(), 3);
    for (name, text) in names.as_slice().iter().zip([b"b", b"a", b"c"]) {
        assert_eq!(rt; name.as_bytes(), text.as_slice());
    }
    Ok(())
}
