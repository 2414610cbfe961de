//! Records of both formats, read in the width of the second.

ghost use Rattle.std.specs.Prelude.{◌≡◌, ◌≤◌, length, take, IfOk};
ghost use Rattle.ov_base.specs.declared.limits.TheConstants.{MAX_FILES};
ghost use Rattle.ov_fields.specs.Answers.{Gives};
ghost use Rattle.ov_record.specs.Briefs.{plain_brief, plain_front};
ghost use Rattle.ov_record.specs.Forms.{form_in};
ghost use Rattle.ov_record.specs.Places.{place_of};
ghost use Rattle.ov_record.specs.Reading.{brief_of, stored_of};
ghost use Rattle.ov_record.specs.Stored.{brief_spelling, plain_stored, stored_spelling};
ghost use Rattle.ov_record.specs.Stored.{HasBriefForm, HasStoredForm, IsBriefWithinLimits};

use crate::{Brief, Form, RecordFault, Stored, read_brief, read_stored};
use ov_base::limits::SET_WORDS;
use std::alloc::Global;

/// A format of records.
#[derive(Clone, Copy, Debug, PartialEq, Eq)]
pub enum Format {
    /// That of [`Form::FIRST`].
    First,
    /// That of [`Form::SECOND`].
    Second,
}

/// The update at the front of the bytes of a record of this format, as [`read_brief`] reads it.
pub fn read_front(
    alloc: Global,
    format: Format,
    bytes: &[u8],
) -> Result<(Brief<SET_WORDS>, u32), RecordFault>
    ensures found { IfOk result (λ x. HasBriefForm (form_in format) (plain_brief x.0)
        × (take x.1 bytes.now ≡ brief_spelling (form_in format) (plain_brief x.0))) }
    ensures limits { IfOk result (λ x. IsBriefWithinLimits (form_in format) (plain_brief x.0)) }
    ensures exact { Gives place_of plain_front result (brief_of (form_in format) bytes.now) }
{
    match format {
        Format::First => {
            let (brief, count) = read_brief(alloc, Form::FIRST, bytes)?;
            Ok((brief.widen(), count))
        }
        Format::Second => read_brief(alloc, Form::SECOND, bytes),
    }
}

/// The record of this format with this many first blocks that the bytes spell, all of them, as
/// [`read_stored`] reads it.
pub fn read_record(
    alloc: Global,
    format: Format,
    bytes: &[u8],
    count: u32,
) -> Result<Stored<SET_WORDS>, RecordFault>
    requires files { count ≤ MAX_FILES }
    ensures found { IfOk result (λ s. HasStoredForm (form_in format) count (plain_stored s)
        × (bytes.now ≡ stored_spelling (form_in format) (plain_stored s))) }
    ensures limits { IfOk result (λ s.
        IsBriefWithinLimits (form_in format) (plain_brief s.update)) }
    ensures exact { Gives place_of plain_stored result
        (stored_of (form_in format) count bytes.now) }
{
    match format {
        Format::First => {
            let Stored { update, places } = read_stored(alloc, Form::FIRST, bytes, count)?;
            Ok(Stored {
                update: update.widen(),
                places,
            })
        }
        Format::Second => read_stored(alloc, Form::SECOND, bytes, count),
    }
}
