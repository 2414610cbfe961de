//! Commands of stated workloads, told beforehand by another ChaCha20.
use ov_base::Name;
use ov_script::{Command, Workload, workload};
use std::alloc::Global;
use std::test::Fail;

fn put_words(words: &[&[u8]], out: &mut Vec<u8>) -> Result<(), Fail> {
    for word in words {
        out.extend_from_slice(word)?;
        out.push(b' ')?;
    }
    Ok(())
}

// Appends a list's names, the number of bytes, and the first and the last byte.
fn put_create(list: &[Name], bytes: &[u8], out: &mut Vec<u8>) -> Result<(), Fail> {
    for name in list {
        put_words(&[name.as_bytes()], out)?;
    }
    let alloc = *out.allocator();
    let size = bytes.len();
    let (Some(first), Some(last)) = (bytes.first(), bytes.last()) else {
        return Err(Fail::from("no bytes"));
    };
    let text = format!(in alloc; "{size} {first}..{last}")?;
    out.extend_from_slice(text.as_bytes())?;
    Ok(())
}

// A command's words, each with a space behind it.
fn told(command: &Command, alloc: Global) -> Result<Vec<u8>, Fail> {
    let mut out = Vec::new(alloc);
    match command {
        Command::Enrol { user } => put_words(&[b"enrol", user.as_bytes()], &mut out)?,
        Command::Create { file, list, bytes } => {
            put_words(&[b"create", file.as_bytes()], &mut out)?;
            put_create(list.as_slice(), bytes.as_slice(), &mut out)?;
        }
        Command::Grant { user, file } => {
            put_words(&[b"grant", user.as_bytes(), file.as_bytes()], &mut out)?
        }
        Command::Revoke { user, file } => {
            put_words(&[b"revoke", user.as_bytes(), file.as_bytes()], &mut out)?
        }
        Command::Remove { file } => put_words(&[b"remove", file.as_bytes()], &mut out)?,
        Command::Replace { file, bytes: _ } => {
            put_words(&[b"replace", file.as_bytes()], &mut out)?
        }
        Command::Read { user, file } => {
            put_words(&[b"read", user.as_bytes(), file.as_bytes()], &mut out)?
        }
        Command::List { file } => put_words(&[b"list", file.as_bytes()], &mut out)?,
        Command::Epoch => put_words(&[b"epoch"], &mut out)?,
    }
    Ok(out)
}

#[test]
fn a_workload_one_after_another(rt: HostRuntime) -> Result<(), Fail> {
    let rows: [(u32, &[u8]); 9] = [
        (0, b"enrol u0 "),
        (7, b"enrol u7 "),
        (8, b"create f0 u0 u2 u5 u6 1764 0..227"),
        (9, b"list f0 "),
        (10, b"grant u6 f0 "),
        (13, b"read u0 f0 "),
        (15, b"revoke u5 f0 "),
        (18, b"create f3 u2 u3 u6 u7 543 10..40"),
        (47, b"grant u3 f3 "),
    ];
    let mut commands = Workload::new(rt.alloc(), 7, 40);
    let mut place = 0;
    for (wanted, text) in rows {
        for _ in place..wanted {
            commands.next()?;
        }
        let command = commands.next()?.ok_or("a command")?;
        let said = told(&command, rt.alloc())?;
        assert_eq!(rt; said.as_slice(), text);
        place = wanted + 1;
    }
    assert!(rt; commands.next()?.is_none());
    Ok(())
}

#[test]
fn commands_of_workloads_by_their_places(rt: HostRuntime) -> Result<(), Fail> {
    let rows: [(u64, u32, u32, &[u8]); 4] = [
        (u64::MAX, 3, 8, b"list f0 "),
        (u64::MAX, 3, 10, b"grant u1 f0 "),
        (7, 20_000, 46, b"create f11 u0 u1 u6 3015 38..236"),
        (7, 20_000, 20_007, b"grant u2 f2656 "),
    ];
    for (number, count, place, text) in rows {
        let command = workload(rt.alloc(), number, count, place)?;
        let said = told(&command, rt.alloc())?;
        assert_eq!(rt; said.as_slice(), text);
    }
    Ok(())
}
