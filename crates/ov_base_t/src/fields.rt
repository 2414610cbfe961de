//! Fields as another program spelled them, and the places of wrong bytes.

use ov_base::UserSet;
use ov_fields::*;
use std::test::Fail;

/// The field that a case reads.
#[derive(Clone, Copy)]
enum Field {
    Byte,
    Flag,
    Short,
    Long,
    Below,
    Name,
    Sized,
    Token,
    Set,
}

/// How many bytes are left after the field, or at the first wrong one.
fn left_after(field: Field, bytes: &[u8]) -> Result<usize, usize> {
    let read = match field {
        Field::Byte => take_byte(1, 5, bytes).map(|read| read.1),
        Field::Flag => take_flag(bytes).map(|read| read.1),
        Field::Short => take_u16_at_most(256, bytes).map(|read| read.1),
        Field::Long => take_u32_between(1, 65_536, bytes).map(|read| read.1),
        Field::Below => take_u32_below(4_096, bytes).map(|read| read.1),
        Field::Name => take_name(bytes).map(|read| read.1),
        Field::Sized => take_sized(2, bytes).map(|read| read.1),
        Field::Token => take_token_or_none(bytes).map(|read| read.1),
        Field::Set => take_set::<1>(bytes).map(|read| read.1),
    };
    match read {
        Ok(rest) => Ok(rest.len()),
        Err(FieldFault::Bad { left }) => Err(left),
        Err(FieldFault::Memory) => Err(usize::MAX),
    }
}

const CASES: [(Field, &[u8], Result<usize, usize>); 20] = [
    (Field::Byte, b"\x05ab", Ok(2)),
    (Field::Byte, b"\x06ab", Err(3)),
    (Field::Flag, b"\x01", Ok(0)),
    (Field::Flag, b"\x02a", Err(2)),
    (Field::Flag, b"", Err(0)),
    (Field::Short, b"\x01\0a", Ok(1)),
    (Field::Short, b"\x01\x01a", Err(3)),
    (Field::Short, b"\x01", Err(0)),
    (Field::Long, b"\0\x01\0\0", Ok(0)),
    (Field::Long, b"\0\0\0\0a", Err(5)),
    (Field::Below, b"\0\0\x0f\xff", Ok(0)),
    (Field::Below, b"\0\0\x10\0", Err(4)),
    (Field::Name, b"\x03a.bc", Ok(1)),
    (Field::Name, b"\x03.abc", Err(4)),
    (Field::Name, b"\x03a/bc", Err(3)),
    (Field::Name, b"\0", Err(1)),
    (Field::Sized, b"\0\0\0\x02abc", Ok(1)),
    (Field::Sized, b"\0\0\0\x03abc", Err(7)),
    (Field::Token, b"\0a", Ok(1)),
    (Field::Set, b"1234567", Err(0)),
];

#[test]
fn fields_are_read(rt: HostRuntime) {
    for (field, bytes, left) in CASES {
        assert_eq!(rt; left_after(field, bytes), left);
    }
}

#[test]
fn fields_are_written(rt: HostRuntime) -> Result<(), Fail> {
    let mut fields = Vec::new(rt.alloc());
    put_u16(258, &mut fields)?;
    put_two(1, 65_536, &mut fields)?;
    put_token_or_none(&None, &mut fields)?;
    put_set(&UserSet::<1>::empty().with(9), &mut fields)?;
    let mut out = Vec::new(rt.alloc());
    append(b"a", &fields, b"b", &mut out)?;
    assert_eq!(rt;
        out.as_slice(),
        b"a\x01\x02\0\0\0\x01\0\x01\0\0\0\0\x02\0\0\0\0\0\0b".as_slice()
    );
    Ok(())
}
