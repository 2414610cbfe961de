//! Lines of replies.
use ov_base::{Name, Names, Octets, Refusal};
use ov_script::{Reply, line};
use std::test::Fail;

/// A name.
fn name(text: &[u8]) -> Result<Name, Fail> {
    Ok(Name::read(text).ok_or("a name")?)
}

/// Appends the line of a reply. Without a clause no proof reads it byte by byte.
fn put_line(reply: Reply, out: &mut Vec<u8>) -> Result<(), Fail> {
    line(&reply, out)?;
    Ok(())
}

/// The line of the list of file `f1` with these names.
fn put_list(texts: &[&[u8]], out: &mut Vec<u8>) -> Result<(), Fail> {
    let mut names = Names::new(*out.allocator());
    for text in texts {
        names.insert(name(text)?)?;
    }
    let file = name(b"f1")?;
    put_line(Reply::List { file, names }, out)
}

/// The line of what alice reads of file `f1`.
fn put_data(bytes: &[u8], out: &mut Vec<u8>) -> Result<(), Fail> {
    let user = name(b"alice")?;
    let file = name(b"f1")?;
    let bytes = Octets::copy(*out.allocator(), bytes)?;
    put_line(Reply::Bytes { user, file, bytes }, out)
}

/// The lines of an update, and of a file that is read and has a line end in it.
fn put_first(out: &mut Vec<u8>) -> Result<(), Fail> {
    put_line(Reply::Accepted(4_294_967_295), out)?;
    put_data(b"he\nlo", out)
}

/// The lines of lists of no name, of one and of three.
fn put_lists(out: &mut Vec<u8>) -> Result<(), Fail> {
    put_list(&[], out)?;
    put_list(&[b"b"], out)?;
    put_list(&[b"b", b"a1", b"c"], out)
}

/// The lines of an epoch, of a refusal and of the end.
fn put_last(out: &mut Vec<u8>) -> Result<(), Fail> {
    put_line(Reply::Epoch(2), out)?;
    put_line(Reply::Refused(Refusal::NoPath), out)?;
    put_line(Reply::End(3), out)
}

const LINES: &[u8] =
    b"ok 4294967295\ndata alice f1 5\nhe\nlo\nlist f1 -\nlist f1 b\nlist f1 b,a1,c\n\
    epoch 2\nrefused 4 NoPath\nend epoch 3\n";

#[test]
fn reply_lines(rt: HostRuntime) -> Result<(), Fail> {
    let mut out = Vec::new(rt.alloc());
    put_first(&mut out)?;
    put_lists(&mut out)?;
    put_last(&mut out)?;
    assert_eq!(rt; out.as_slice(), LINES);
    Ok(())
}
