//! Writing fields.

ghost use Rattle.std.specs.Prelude.{◌≡◌, ◌++◌, length, take, OnErr, OnOk};
ghost use Rattle.ov_fields.specs.Spelling.{u16, u32, name_field, optional, token_field};

use ov_base::{Memory, Name};
use ov_tokens::Token;

/// Appends a number of two bytes. On an error nothing is known of what was appended, as in each of
/// these calls: a caller writes to a list of its own, and ends with [`append`].
pub fn put_u16(number: u16, out: &mut Vec<u8>) -> Result<(), Memory>
    ensures { OnOk result (out.new.items ≡ out.old.items ++ u16 number) }
{
    out.extend_from_slice(&number.to_be_bytes())?;
    Ok(())
}

/// Appends a number of four bytes.
pub fn put_u32(number: u32, out: &mut Vec<u8>) -> Result<(), Memory>
    ensures { OnOk result (out.new.items ≡ out.old.items ++ u32 number) }
{
    out.extend_from_slice(&number.to_be_bytes())?;
    Ok(())
}

/// Appends two numbers of four bytes.
pub fn put_two(first: u32, second: u32, out: &mut Vec<u8>) -> Result<(), Memory>
    ensures { OnOk result (out.new.items ≡ out.old.items ++ (u32 first ++ u32 second)) }
{
    put_u32(first, out)?;
    put_u32(second, out)
}

/// Appends a name behind its length.
pub fn put_name(name: &Name, out: &mut Vec<u8>) -> Result<(), Memory>
    ensures { OnOk result (out.new.items ≡ out.old.items ++ name_field name.now) }
{
    let bytes = name.as_bytes();
    out.push(bytes.len() as u8)?;
    out.extend_from_slice(bytes)?;
    Ok(())
}

/// Appends a token.
pub fn put_token(token: &Token, out: &mut Vec<u8>) -> Result<(), Memory>
    ensures { OnOk result (out.new.items ≡ out.old.items ++ token_field token.now) }
{
    out.extend_from_slice(&token.bytes)?;
    Ok(())
}

/// Appends three lists of bytes, or nothing.
pub fn append(front: &[u8], body: &[u8], end: &[u8], out: &mut Vec<u8>) -> Result<(), Memory>
    ensures ok { OnOk result (out.new.items ≡ out.old.items ++ (front.now ++ body.now ++ end.now)) }
    ensures err { OnErr result (out.new.items ≡ out.old.items) }
{
    let len = out.len();
    match append_all(front, body, end, out) {
        Ok(()) => Ok(()),
        Err(memory) => {
            out.truncate(len);
            Err(memory)
        }
    }
}

fn append_all(front: &[u8], body: &[u8], end: &[u8], out: &mut Vec<u8>) -> Result<(), Memory>
    ensures ok { OnOk result (out.new.items ≡ out.old.items ++ (front.now ++ body.now ++ end.now)) }
    ensures err { OnErr result (take (length out.old.items) out.new.items ≡ out.old.items) }
{
    out.extend_from_slice(front)?;
    out.extend_from_slice(body)?;
    out.extend_from_slice(end)?;
    Ok(())
}

/// Appends a flag, and the token where there is one.
pub fn put_token_or_none(token: &Option<Token>, out: &mut Vec<u8>) -> Result<(), Memory>
    ensures { OnOk result (out.new.items ≡ out.old.items ++ optional token_field token.now) }
{
    match token {
        None => out.push(0)?,
        Some(token) => {
            out.push(1)?;
            put_token(token, out)?;
        }
    }
    Ok(())
}
