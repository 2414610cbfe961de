//! A record of the first form in the width of the second.

ghost use Rattle.ov_fields.specs.Answers.{Gives};
ghost use Rattle.ov_record.specs.Briefs.{plain_front};
ghost use Rattle.ov_record.specs.Forms.{first_form};
ghost use Rattle.ov_record.specs.Places.{place_of};
ghost use Rattle.ov_record.specs.Reading.{brief_of};

use crate::record::CREATION;
use ov_base::UserSet;
use ov_record::*;
use std::alloc::Global;

/// The update at the front of the bytes, which are in the first form, with a set of 16 words.
fn widened(alloc: Global, bytes: &[u8]) -> Result<(Brief<16>, u32), RecordFault>
    ensures { Gives place_of plain_front result (brief_of first_form bytes.now) }
{
    let (brief, size) = read_brief(alloc, Form::FIRST, bytes)?;
    Ok((brief.widen(), size))
}

/// The list of a creation, the number of its tokens, and its length.
fn list_of(brief: &Brief<16>) -> Option<(UserSet<16>, usize, u32)> {
    match brief {
        Brief::Create {
            list,
            tokens,
            length,
            ..
        } => Some((list.copy(), tokens.as_slice().len(), *length)),
        _ => None,
    }
}

#[test]
fn a_creation_of_the_first_form_in_the_width_of_the_second(rt: HostRuntime) {
    let list = UserSet::empty().with(0).with(3);
    // A record has no bytes of a file, and ends with their number.
    let record = &CREATION[..138];
    match widened(rt.alloc(), record) {
        Ok((brief, size)) => {
            assert_eq!(rt; size, 138);
            assert!(rt; list_of(&brief) == Some((list, 2, 5)));
        }
        Err(_) => assert!(rt; false),
    }
    assert!(rt; read_brief(rt.alloc(), Form::SECOND, record).is_err());
}
