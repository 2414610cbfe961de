//! Each request within the limits has a spelling. The functions do nothing: a caller that names one
//! may use what its contract says.

ghost use Rattle.ov_wire.specs.Requests.{HasQuestionForm, HasRequestForm, HasRequestLimits};

use crate::{Question, Request};
use ov_fields::{known_name, known_names, known_tag};

fn known_question_form(question: &Question)
    ensures { HasQuestionForm question.now }
{
    match question {
        Question::Enrol { user } => known_name(user),
        Question::Grant { user, file } => {
            known_name(user);
            known_name(file);
        }
        Question::Revoke { user, file } => {
            known_name(user);
            known_name(file);
        }
        Question::Key { user } => known_name(user),
        Question::Remove { file } => known_name(file),
    }
}

/// A request within the limits has a spelling.
pub fn known_request_form(request: &Request)
    requires { HasRequestLimits request.now }
    ensures { HasRequestForm request.now }
{
    match request {
        Request::Hello => {}
        Request::Ask { question } => known_question_form(question),
        Request::Cover { file, names, .. } => {
            known_name(file);
            known_names(names);
        }
        Request::Update { epoch, tag, .. } => {
            let _epoch = *epoch;
            known_tag(tag);
        }
        Request::Chain { user, file } => {
            known_name(user);
            known_name(file);
        }
        Request::Chunk {
            file,
            generation,
            start,
            ..
        } => {
            let _numbers = (*file, *generation, *start);
        }
        Request::Page { number, .. } => {
            let _number = *number;
        }
        Request::List { file } => known_name(file),
        Request::Replan { file, .. } => known_name(file),
    }
}
