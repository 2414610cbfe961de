//! Replies and their lines.
ghost use Rattle.std.specs.Prelude.{◌≡◌, [], ◌∷◌, ◌++◌, codes, OnOk, OnErr, IfOk};
ghost use Rattle.std.specs.Fmt.{decimal};
ghost use Rattle.ov_script.specs.Lines.{reply_line};
ghost use Rattle.ov_script.specs.WrittenLists.{list_text, with_commas};

use ov_base::{Memory, Name, Names, Octets, Refusal};
use std::alloc::Global;

/// What a command, or the end of a script, is answered with.
#[derive(Drop)]
pub enum Reply {
    /// An update was accepted; the new epoch.
    Accepted(u32),
    /// The bytes of a file, for the user who asked.
    Bytes {
        user: Name,
        file: Name,
        bytes: Octets,
    },
    /// The names in the list of a file, in order.
    List {
        file: Name,
        names: Names,
    },
    /// The epoch.
    Epoch(u32),
    /// The command was refused, and nothing changed.
    Refused(Refusal),
    /// The script ended, at this epoch.
    End(u32),
}

// Appends the two texts and an LF, or nothing.
fn append_all(out: &mut Vec<u8>, head: &[u8], bytes: &[u8]) -> Result<(), Memory>
    ensures ok { OnOk result (out.new.items ≡ out.old.items ++ head.now ++ bytes.now ++ 10 ∷ []) }
    ensures err { OnErr result (out.new.items ≡ out.old.items) }
{
    out.reserve(head.len() + bytes.len() + 1)?;
    out.extend_from_slice(head)?;
    out.extend_from_slice(bytes)?;
    Ok(out.push(b'\n')?)
}

// The first line of a reply with bytes.
fn data_line(user: &Name, file: &Name, size: usize, alloc: Global) -> Result<Vec<u8>, Memory>
    ensures { IfOk result (λ head. head.items
        ≡ codes "data " ++ user.now ++ 32 ∷ file.now ++ 32 ∷ decimal size ++ 10 ∷ []) }
{
    let size = format!(in alloc; " {size}\n")?;
    let mut head = b"data ".to_vec(alloc)?;
    head.extend_from_slice(user.as_bytes())?;
    head.push(b' ')?;
    head.extend_from_slice(file.as_bytes())?;
    head.extend_from_slice(size.as_bytes())?;
    Ok(head)
}

// Appends the names, each behind a comma.
fn put_with_commas(names: &[Name], text: &mut Vec<u8>) -> Result<(), Memory>
    ensures { OnOk result (text.new.items ≡ text.old.items ++ with_commas names.now) }
{
    for name in names {
        text.push(b',')?;
        text.extend_from_slice(name.as_bytes())?;
    }
    Ok(())
}

// Appends the names with commas between them, or `-` where there are none.
fn put_names(names: &[Name], text: &mut Vec<u8>) -> Result<(), Memory>
    ensures { OnOk result (text.new.items ≡ text.old.items ++ list_text names.now) }
{
    match names {
        [] => Ok(text.push(b'-')?),
        [first, others @ ..] => {
            text.extend_from_slice(first.as_bytes())?;
            put_with_commas(others, text)
        }
    }
}

// The line of a list.
fn list_line(file: &Name, names: &[Name], alloc: Global) -> Result<Vec<u8>, Memory>
    ensures { IfOk result (λ text. text.items
        ≡ codes "list " ++ file.now ++ 32 ∷ list_text names.now ++ 10 ∷ []) }
{
    let mut text = b"list ".to_vec(alloc)?;
    text.extend_from_slice(file.as_bytes())?;
    text.push(b' ')?;
    put_names(names, &mut text)?;
    text.push(b'\n')?;
    Ok(text)
}

/// Appends the line of a reply, with its LF.
pub fn line(reply: &Reply, out: &mut Vec<u8>) -> Result<(), Memory>
    ensures ok { OnOk result (out.new.items ≡ out.old.items ++ reply_line reply.now) }
    ensures err { OnErr result (out.new.items ≡ out.old.items) }
{
    let alloc = *out.allocator();
    let text = match reply {
        Reply::Accepted(epoch) => format!(in alloc; "ok {epoch}\n")?,
        Reply::Bytes { user, file, bytes } => {
            let bytes = bytes.as_slice();
            let head = data_line(user, file, bytes.len(), alloc)?;
            return append_all(out, &head, bytes);
        }
        Reply::List { file, names } => {
            let text = list_line(file, names.as_slice(), alloc)?;
            return Ok(out.extend_from_slice(&text)?);
        }
        Reply::Epoch(epoch) => format!(in alloc; "epoch {epoch}\n")?,
        Reply::Refused(why) => {
            let number = why.number();
            let word = why.word();
            format!(in alloc; "refused {number} {word}\n")?
        }
        Reply::End(epoch) => format!(in alloc; "end epoch {epoch}\n")?,
    };
    Ok(out.extend_from_slice(text.as_bytes())?)
}
