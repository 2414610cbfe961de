//! Lists of names in frames.

ghost use Rattle.std.specs.Prelude.{◌≡◌, ◌≤◌, ◌++◌, [], length, OnOk};
ghost use Rattle.std.specs.List.{flat_map};
ghost use Rattle.ov_fields.specs.Answers.{GivesField};
ghost use Rattle.ov_fields.specs.Spelling.{counted, name_field};
ghost use Rattle.ov_wire.specs.RequestReading.{names_at, new_names_at};

use ov_base::{Memory, Name, Names};
use ov_fields::{FieldFault, put_name, put_u16, take_name, take_u16_at_most};
use std::alloc::Global;

/// At most this many names behind their number. One that comes twice is wrong at its length byte.
#[tactic(auto, unfolding(crate::specs::RequestReading::names_at))]
pub fn take_names(alloc: Global, most: u16, bytes: &[u8]) -> Result<(Names, &[u8]), FieldFault>
    ensures { GivesField (λ n. n) result (names_at most bytes.now) }
{
    let (count, rest) = take_u16_at_most(most, bytes)?;
    let (names, rest) = take_each_name(alloc, count, rest)?;
    Ok((names, rest))
}

/// Takes `count` names, one after the other.
fn take_each_name(alloc: Global, count: u16, bytes: &[u8]) -> Result<(Names, &[u8]), FieldFault>
    ensures { GivesField (λ n. n) result (new_names_at count [] bytes.now) }
{
    let mut names = Names::new(alloc);
    let mut rest = bytes;
    for _ in 0..count {
        let (name, after) = take_name(rest)?;
        let fresh = names.insert(name)?;
        if !fresh {
            return Err(FieldFault::Bad { left: rest.len() });
        }
        rest = after;
    }
    Ok((names, rest))
}

/// Appends names behind their number.
pub fn put_names(names: &Names, out: &mut Vec<u8>) -> Result<(), Memory>
    requires { length names.now ≤ 65535 }
    ensures { OnOk result (out.new.items ≡ out.old.items ++ counted name_field names.now) }
{
    let names = names.as_slice();
    put_u16(names.len() as u16, out)?;
    put_each_name(names, out)
}

/// Appends names, one after the other.
fn put_each_name(names: &[Name], out: &mut Vec<u8>) -> Result<(), Memory>
    ensures { OnOk result (out.new.items ≡ out.old.items ++ flat_map name_field names.now) }
{
    for name in names {
        put_name(name, out)?;
    }
    Ok(())
}
