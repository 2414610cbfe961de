//! Keys and tokens that another program gives, and the lists.

mod vectors;

use crate::bytes::fill;
use ov_base::Key;
use ov_tokens::*;
use std::process::Abort;
use std::test::Fail;
use vectors::{ROWS, Row};

/// The key whose first byte is `start`, each next byte `step` more.
fn counted_key(start: u8, step: u8) -> Key {
    let mut bytes = [0u8; 32];
    fill(&mut bytes, start, step);
    Key { bytes }
}

/// A label and its key, by a layer alone.
fn node_of<L: Layer>(master: &Master, number: u32) -> (Label, Key) {
    (L::label(number), L::key_of(master, number))
}

#[test]
fn spelling_of_labels(rt: HostRuntime) {
    let label = |kind: Kind, number: u32| Label { kind, number };
    assert_eq!(rt; label(Kind::Surface, 3).bytes(), *b"\x53\0\0\0\x03");
    assert_eq!(rt;
        label(Kind::Derive, 0x01020304).bytes(),
        *b"\x42\x01\x02\x03\x04"
    );
    assert_eq!(rt;
        label(Kind::Access, 0xffffffff).bytes(),
        *b"\x41\xff\xff\xff\xff"
    );
    assert_eq!(rt; Surface::label(3), label(Kind::Surface, 3));
    assert_eq!(rt; Base::label(3), label(Kind::Derive, 3));
    assert_eq!(rt; (Base::TAG, Surface::TAG), (b'B', b'S'));
}

#[test]
fn access_key_of_zeros(rt: HostRuntime) {
    let zeros = Key { bytes: [0; 32] };
    let digest = b"\x66\x68\x7a\xad\xf8\x62\xbd\x77\x6c\x8f\xc1\x8b\x8e\x9f\x8e\x20\
        \x08\x97\x14\x85\x6e\xe2\x33\xb3\x90\x2a\x59\x1d\x0d\x5f\x29\x25";
    assert_eq!(rt; access_key(&zeros).bytes, *digest);
}

fn expect_row(rt: &impl Abort, row: &Row) {
    let base = Master::new(&counted_key(row.start, 1));
    let surface = Master::new(&counted_key(row.start, 3));
    let (_, base_key) = node_of::<Base>(&base, row.number);
    assert_eq!(rt; base_key.bytes, row.base_key);
    let (_, surface_key) = node_of::<Surface>(&surface, row.number);
    assert_eq!(rt; surface_key.bytes, row.surface_key);
    let access = access_key(&base_key);
    assert_eq!(rt; access.bytes, row.access_key);
    let to = Label {
        kind: Kind::Access,
        number: row.number,
    };
    let token = make(&base_key, to, &access);
    assert_eq!(rt; token.bytes, row.token);
    assert_eq!(rt; derive(&base_key, to, &token).bytes, row.access_key);
    assert_eq!(rt; tag_key(&access, row.number).bytes, row.tag_key);
    assert_eq!(rt; *update_key(&surface).bytes(), row.update_key);
    assert_eq!(rt; check_value(&base), row.check_value);
}

#[test]
fn values_of_another_program(rt: HostRuntime) {
    for row in &ROWS {
        expect_row(&rt, row);
    }
}

#[test]
fn lists_grow_and_turn_into_vectors(rt: HostRuntime) -> Result<(), Fail> {
    let mut numbers = Numbers::new(rt.alloc());
    numbers.push(7)?;
    numbers.push(5)?;
    assert_eq!(rt; numbers.as_slice(), [7, 5].as_slice());
    assert_eq!(rt;
        Numbers::from_vec(numbers.into_vec()).as_slice(),
        [7, 5].as_slice()
    );

    let token = Token { bytes: [9; 32] };
    let mut tokens = Tokens::new(rt.alloc());
    tokens.push(token)?;
    assert_eq!(rt; tokens.as_slice(), [token].as_slice());
    assert_eq!(rt;
        Tokens::from_vec(tokens.into_vec()).as_slice(),
        [token].as_slice()
    );

    let step = Step {
        to: Base::label(4),
        token,
    };
    let mut steps = Steps::new(rt.alloc());
    steps.push(step)?;
    assert_eq!(rt; steps.as_slice(), [step].as_slice());
    let chain = Chain {
        root: 2,
        steps: Steps::from_vec(steps.into_vec()),
    };
    assert_eq!(rt; chain.steps.as_slice(), [step].as_slice());
    Ok(())
}
