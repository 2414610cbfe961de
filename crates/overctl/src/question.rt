//! Questions that need no key: the words, and why there is no answer.

use crate::asks::text_of;
use ov_acts::Stop;
use ov_base::Name;
use ov_listing::{ListingFault, Question};

/// A question, and where its server is.
#[derive(Drop)]
pub struct Asked<'a> {
    pub address: &'a str,
    pub question: Question,
}

// The question of a command that has no word behind its address.
fn question_alone(command: &str) -> Option<Question> {
    match command {
        "epoch" => Some(Question::Epoch),
        "users" => Some(Question::Users),
        "files" => Some(Question::Files { user: None }),
        _ => None,
    }
}

// The question of a command that has a name behind its address.
fn question_on(command: &str, user: &str) -> Option<Question> {
    let user = Name::read(user.as_bytes())?;
    match command {
        "files" => Some(Question::Files { user: Some(user) }),
        _ => None,
    }
}

/// The question of which these words are the line.
pub fn question_of(words: &[String]) -> Option<Asked<'_>> {
    let (address, question) = match words {
        [command, address] => (address, question_alone(command.as_str())?),
        [command, address, user] => (address, question_on(command.as_str(), user.as_str())?),
        _ => return None,
    };
    Some(Asked {
        address: address.as_str(),
        question,
    })
}

/// The user that the question names, or nothing.
pub fn user_of(question: &Question) -> &str {
    match question {
        Question::Files { user: Some(user) } => text_of(user),
        _ => "",
    }
}

/// Why there is no answer.
pub fn stop_of(fault: ListingFault) -> Stop {
    match fault {
        ListingFault::Link => Stop::Link,
        ListingFault::BadReply { at: _ } => Stop::BadReply,
        ListingFault::Unsettled => Stop::Unsettled,
        ListingFault::Memory => Stop::Memory,
    }
}
