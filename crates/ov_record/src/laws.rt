//! What holds of all spellings, and of the places at which bytes are none.

ghost use Rattle.ov_record.specs.Laws.{BadFrontsArePlaced, BadRecordsArePlaced};
ghost use Rattle.ov_record.specs.Laws.{BadUpdatesArePlaced};
ghost use Rattle.ov_record.specs.Laws.{BriefsAreRead, BriefsAreSpelledApart, BriefsBeginSpellings};
ghost use Rattle.ov_record.specs.Laws.{RecordsAreRead, RecordsAreSpelledApart, RecordsFit};
ghost use Rattle.ov_record.specs.Laws.{SpellingsAreRead, SpellingsFitRecords, UpdatesAreSpelledApart};
ghost use Rattle.ov_record.specs.Laws.{FormsHaveRoom, WiderFormsHaveAll};
ghost use Rattle.ov_record.specs.Forms.{first_form, form_of, second_form};
ghost use Rattle.std.specs.Prelude.{◌≡◌};

use crate::Form;

/// The forms of the two formats.
pub fn forms_are_known() -> (Form<4>, Form<16>)
    ensures first { form_of result.0 ≡ first_form }
    ensures second { form_of result.1 ≡ second_form }
{
    (Form::FIRST, Form::SECOND)
}

/// Both forms have room, and the records of both fit.
pub fn forms_have_room()
    ensures { FormsHaveRoom }
{}

/// The law of spellings: no update's spelling is the front of another's, and none spells two
/// updates.
pub fn updates_are_spelled_apart()
    ensures { UpdatesAreSpelledApart }
{}

/// The law of reading: each update with form is read from its spelling.
pub fn spellings_are_read()
    ensures { SpellingsAreRead }
{}

/// The law of records: in each form of which the longest spelling fits into one, each does.
pub fn spellings_fit_records()
    ensures { SpellingsFitRecords }
{}

/// An update's spelling is that of its brief, and then the bytes of its file.
pub fn briefs_begin_spellings()
    ensures { BriefsBeginSpellings }
{}

/// No brief's spelling is the front of another's, and none spells two briefs.
pub fn briefs_are_spelled_apart()
    ensures { BriefsAreSpelledApart }
{}

/// Each brief with form is read from the front of its spelling and whatever follows it.
pub fn briefs_are_read()
    ensures { BriefsAreRead }
{}

/// Of records with as many first blocks none's spelling is the front of another's, and none spells
/// two.
pub fn records_are_spelled_apart()
    ensures { RecordsAreSpelledApart }
{}

/// Each record with form is read from its spelling.
pub fn records_are_read()
    ensures { RecordsAreRead }
{}

/// In each form of which the longest record fits, each does.
pub fn records_fit()
    ensures { RecordsFit }
{}

/// Each brief with form has one in each wider form too.
pub fn wider_forms_have_all()
    ensures { WiderFormsHaveAll }
{}

/// The law of wrong places: where bytes spell no update, what stands before the place that is named
/// goes on to a spelling, and with the field at it none does.
pub fn bad_updates_are_placed()
    ensures { BadUpdatesArePlaced }
{}

/// Where no brief is at the front of bytes, what stands before the place that is named goes on to
/// the spelling of one, and with the field at it to none.
pub fn bad_fronts_are_placed()
    ensures { BadFrontsArePlaced }
{}

/// Where bytes are no record with so many first blocks, what stands before the place that is named
/// goes on to the spelling of one, and with the field at it to none.
pub fn bad_records_are_placed()
    ensures { BadRecordsArePlaced }
{}
