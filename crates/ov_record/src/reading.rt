//! Reading updates.

ghost use Rattle.std.specs.Prelude.{◌≡◌, ◌≤◌, ◌<◌, ◌^◌, drop, length, IfOk, Ok};
ghost use Rattle.ov_base.specs.declared.limits.TheConstants.{MAX_SET_WORDS};
ghost use Rattle.ov_fields.specs.Answers.{Gives, GivesField, left_of};
ghost use Rattle.ov_fields.specs.Reading.{all_of, counted_at, many_at, token_at};
ghost use Rattle.ov_record.specs.Briefs.{plain_brief, with_text};
ghost use Rattle.ov_record.specs.Forms.{form_of, longest_spelling};
ghost use Rattle.ov_record.specs.Places.{place_of};
ghost use Rattle.ov_record.specs.Reading.{update_at, update_of};
ghost use Rattle.ov_record.specs.Spelling.{spelling, HasForm, IsWithinLimits};
ghost use Rattle.ov_record.specs.Updates.{SealedUpdate, sealed_update};

use crate::stored_reading::take_brief;
use crate::{Brief, Form, RecordFault, Update};
use ov_base::Octets;
use ov_fields::{FieldFault, take_bytes, take_token, take_u16_at_most};
use ov_tokens::Tokens;
use std::alloc::Global;

/// At most this many tokens behind their number.
#[tactic(auto, unfolding(ov_fields::specs::Reading::counted_at))]
pub fn take_tokens(alloc: Global, most: u16, bytes: &[u8]) -> Result<(Tokens, &[u8]), FieldFault>
    ensures { GivesField (λ t. t) result (counted_at most token_at bytes.now) }
{
    let (count, rest) = take_u16_at_most(most, bytes)?;
    take_all_tokens(alloc, count, rest)
}

fn take_all_tokens(alloc: Global, count: u16, bytes: &[u8]) -> Result<(Tokens, &[u8]), FieldFault>
    ensures { GivesField (λ t. t) result (many_at token_at count bytes.now) }
{
    let mut tokens = Tokens::new(alloc);
    let mut rest = bytes;
    for _ in 0..count {
        let (token, after) = take_token(rest)?;
        tokens.push(token)?;
        rest = after;
    }
    Ok((tokens, rest))
}

/// The update that the bytes spell, all of them: its brief, and how many bytes stand before those of
/// its file.
fn read_all<const W: usize>(
    alloc: Global,
    form: Form<W>,
    bytes: &[u8],
) -> Result<(Brief<W>, usize), FieldFault>
    requires { (1 ≤ W) × (W ≤ MAX_SET_WORDS) }
    ensures update { Gives left_of (λ x. with_text (plain_brief x.0) (drop x.1 bytes.now)) result
        (all_of (update_at (form_of form.entry) bytes.now)) }
    ensures within { IfOk result (λ x. x.1 ≤ length bytes.now) }
{
    let (brief, text) = take_brief(alloc, form, bytes)?;
    let (_, rest) = take_bytes(brief.text_size() as usize, text)?;
    if !rest.is_empty() {
        return Err(FieldFault::Bad { left: rest.len() });
    }
    Ok((brief, bytes.len() - text.len()))
}

/// Takes this many bytes off the front, where they stand.
fn take_front(count: usize, bytes: &mut Vec<u8>)
    requires { count ≤ length bytes.old.items }
    ensures { bytes.new.items ≡ drop count bytes.old.items }
{
    let rest = bytes.len() - count;
    bytes.rotate_left(count);
    bytes.truncate(rest);
}

/// What [`read_all`] gives, and the place of an error.
fn read_head<const W: usize>(
    alloc: Global,
    form: Form<W>,
    bytes: &[u8],
) -> Result<(Brief<W>, usize), RecordFault>
    requires width { (1 ≤ W) × (W ≤ MAX_SET_WORDS) }
    requires places { longest_spelling (form_of form) < 2 ^ 32 }
    ensures update { Gives place_of (λ x. with_text (plain_brief x.0) (drop x.1 bytes.now)) result
        (update_of (form_of form.entry) bytes.now) }
    ensures within { IfOk result (λ x. x.1 ≤ length bytes.now) }
    ensures found { IfOk result (λ x. let u = with_text (plain_brief x.0) (drop x.1 bytes.now) in
        HasForm (form_of form.entry) u × (bytes.now ≡ spelling (form_of form.entry) u)) }
{
    match read_all(alloc, form, bytes) {
        Ok(head) => Ok(head),
        Err(FieldFault::Bad { left }) => Err(RecordFault::BadRecord {
            at: (bytes.len() - left) as u32,
        }),
        Err(FieldFault::Memory) => Err(RecordFault::Memory),
    }
}

/// The update that the bytes spell in this form, all of them, for a W from 1 to `MAX_SET_WORDS`, and
/// where the places of the longest spelling are numbers of 32 bits. The bytes of its file stay in the
/// allocation of the spelling.
pub fn read_whole<const W: usize>(
    alloc: Global,
    form: Form<W>,
    bytes: Octets,
) -> Result<Update<W>, RecordFault>
    requires width { (1 ≤ W) × (W ≤ MAX_SET_WORDS) }
    requires places { longest_spelling (form_of form) < 2 ^ 32 }
    // What is read is spelled so.
    ensures found { IfOk result (λ u. HasForm (form_of form.entry) (sealed_update u)
        × (bytes ≡ spelling (form_of form.entry) (sealed_update u))) }
    // What is read can be written again.
    ensures limits { IfOk result (λ u. IsWithinLimits (form_of form.entry) (sealed_update u)) }
    // What is spelled so is read, unless memory runs out.
    ensures only { (u : SealedUpdate) → HasForm (form_of form.entry) u
        → bytes ≡ spelling (form_of form.entry) u
        → Gives place_of sealed_update result (Ok u) }
    // The place that an error names.
    ensures exact { Gives place_of sealed_update result
        (update_of (form_of form.entry) bytes) }
{
    let (brief, count) = read_head(alloc, form, bytes.as_slice())?;
    let mut text = bytes.into_vec();
    take_front(count, &mut text);
    Ok(brief.into_update(Octets::from_vec(text)))
}
