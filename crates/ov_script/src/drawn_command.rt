//! Commands of a workload, from what was drawn.
ghost use Rattle.std.specs.Prelude.{◌≡◌, ◌+◌, ◌^◌, ◌<◌, ◌≤◌, ◌∷◌, IfOk, IsTrue};
ghost use Rattle.std.specs.Fmt.{decimal};
ghost use Rattle.ov_base.specs.Names.{is_letter_or_digit};
ghost use Rattle.ov_script.specs.Workload.{body, command_by, file, user, users_in};
ghost use Rattle.ov_script.specs.declared.drawn.TheConstants.{WORKLOAD_USERS, MAX_WORKLOAD};

use crate::command::Command;
use crate::drawn::{Drawn, Kind, MAX_WORKLOAD, WORKLOAD_USERS};
use ov_base::{Memory, Name, Names, Octets};
use std::alloc::Global;

// The name of a letter and a number.
fn numbered(letter: u8, number: u32, alloc: Global) -> Result<Name, Memory>
    requires { IsTrue (is_letter_or_digit letter) }
    ensures { IfOk result (λ name. name ≡ letter ∷ decimal number) }
{
    let digits = format!(in alloc; "{number}")?;
    let mut text = vec![in alloc; letter]?;
    text.extend_from_slice(digits.as_bytes())?;
    match Name::read(&text) {
        Some(name) => Ok(name),
        None => unreachable!(),
    }
}

/// The name of this user of a workload.
pub fn user(number: u32, alloc: Global) -> Result<Name, Memory>
    ensures { IfOk result (λ name. name ≡ user number) }
{
    numbered(b'u', number, alloc)
}

fn file(number: u32, alloc: Global) -> Result<Name, Memory>
    ensures { IfOk result (λ name. name ≡ file number) }
{
    numbered(b'f', number, alloc)
}

// The users whose bits are set.
fn users_in(who: u32, alloc: Global) -> Result<Names, Memory>
    ensures { IfOk result (λ names. names ≡ users_in who WORKLOAD_USERS) }
{
    let mut names = Names::new(alloc);
    'users: for number in 0..WORKLOAD_USERS {
        if (who >> number) % 2 == 1 {
            names.insert(user(number, alloc)?)?;
        }
    }
    Ok(names)
}

fn body(first: u32, length: u32, alloc: Global) -> Result<Octets, Memory>
    requires { first + length < 2 ^ 32 }
    ensures { IfOk result (λ bytes. bytes ≡ body first length) }
{
    let mut bytes = Vec::new(alloc);
    'bytes: for j in 0..length {
        bytes.push(((first + j) % 256) as u8)?;
    }
    Ok(Octets::from_vec(bytes))
}

/// Drawn command `i`, where this many files were created before.
pub fn command_by(i: u32, made: u32, drawn: Drawn, alloc: Global) -> Result<Command, Memory>
    requires { i ≤ MAX_WORKLOAD }
    ensures { IfOk result (λ command. command ≡ command_by drawn.kind i made drawn.who drawn.what) }
{
    if let Kind::Creates = drawn.kind {
        let list = users_in(drawn.who, alloc)?;
        let bytes = body(i, drawn.what % 4_096, alloc)?;
        let file = file(made, alloc)?;
        return Ok(Command::Create { file, list, bytes });
    }
    let file = file(drawn.what % made.max(1), alloc)?;
    let user = user(drawn.who % WORKLOAD_USERS, alloc)?;
    Ok(match drawn.kind {
        Kind::Grants => Command::Grant { user, file },
        Kind::Revokes => Command::Revoke { user, file },
        Kind::Reads => Command::Read { user, file },
        _ => Command::List { file },
    })
}
