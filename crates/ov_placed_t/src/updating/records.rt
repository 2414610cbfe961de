//! A record that is read again, and what it begins with.
use ov_base::{Memory, Name};
use ov_moves::{Move, Spell};
use ov_record::{Brief, Form, read_stored};
use ov_state::WIDTH;
use ov_tokens::Tokens;
use ov_updating::{Recording, spell_update};
use std::alloc::Global;
use std::process::Abort;
use std::test::Fail;

fn move_to(file: u32, to: u32) -> Move {
    Move {
        file,
        length: 1,
        from: None,
        to,
    }
}

// The body of the record of a revocation by which two files go elsewhere.
fn body(alloc: Global) -> Result<Vec<u8>, Memory> {
    let revoke: Brief<WIDTH> = Brief::Revoke { user: 3, file: 4 };
    let (_, front) = spell_update(alloc, revoke)?;
    let moves = [move_to(4, 0x0102_0304), move_to(9, 7)];
    Recording { front: &front }.spell(alloc, &moves)
}

const BODY: [u8; 17] = [4, 0, 0, 0, 3, 0, 0, 0, 4, 1, 2, 3, 4, 0, 0, 0, 7];

#[test]
fn a_record_is_read_again(rt: HostRuntime) -> Result<(), Fail> {
    let body = body(rt.alloc())?;
    assert!(rt; body.as_slice() == BODY.as_slice());
    let read = read_stored(rt.alloc(), Form::SECOND, &body, 2);
    match read {
        Ok(stored) => assert!(rt; stored.places.as_slice() == [0x0102_0304, 7].as_slice()),
        Err(_) => assert!(rt; false),
    }
    Ok(())
}

#[test]
fn a_removal_has_its_file_alone(rt: HostRuntime) -> Result<(), Fail> {
    let remove: Brief<WIDTH> = Brief::Remove { file: 258 };
    let (_, front) = spell_update(rt.alloc(), remove)?;
    assert!(rt; front.as_slice() == [6, 0, 0, 1, 2].as_slice());
    Ok(())
}

// The spelling of the replacement of a file by one of 258 bytes, whose list needs no token.
fn replacement(alloc: Global, name: Name) -> Result<Vec<u8>, Memory> {
    let replace: Brief<WIDTH> = Brief::Replace {
        name,
        tokens: Tokens::new(alloc),
        tag: [5; 32],
        length: 258,
    };
    let (_, front) = spell_update(alloc, replace)?;
    Ok(front)
}

#[test]
fn a_replacement_has_the_name_of_its_file(rt: HostRuntime) -> Result<(), Fail> {
    let name = match Name::read(b"f") {
        Some(name) => name,
        None => return Ok(()),
    };
    let front = replacement(rt.alloc(), name)?;
    assert!(rt; front.len() == 41);
    let (name, _) = front.as_slice().split_at(5);
    assert!(rt; name == [7, 1, 102, 0, 0].as_slice());
    let (_, length) = front.as_slice().split_at(37);
    assert!(rt; length == [0, 0, 1, 2].as_slice());
    Ok(())
}
