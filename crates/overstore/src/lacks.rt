//! What a line of a script lacks.
use ov_base::Name;
use ov_base::limits::{MAX_FILE_BYTES, MAX_LINE_BYTES};

/// What a bad line lacks, the first thing that is seen of these.
#[derive(Clone, Copy, Debug, PartialEq, Eq)]
pub enum Lack {
    /// The line is empty.
    Text,
    /// With its LF it has too many bytes.
    Short,
    /// The line has a CR.
    LineFeedAlone,
    /// The line begins with no command.
    Command,
    /// The line has other words than the command takes.
    Words,
    /// A word that is to be a name is none.
    Name,
    /// The word that is to be a list is none.
    List,
    /// The word that is to be a length is none.
    Length,
    /// The script stops before its LF.
    End,
    /// The file's bytes and an LF don't follow the line.
    Bytes,
}

// What a word is to be.
#[derive(Clone, Copy)]
enum Form {
    Name,
    List,
    Length,
}

// What the words behind a command are to be.
fn forms_of(command: &str) -> Option<&'static [Form]> {
    match command {
        "enrol" | "remove" | "list" => Some(&[Form::Name]),
        "grant" | "revoke" | "read" => Some(&[Form::Name, Form::Name]),
        "create" => Some(&[Form::Name, Form::List, Form::Length]),
        "replace" => Some(&[Form::Name, Form::Length]),
        "epoch" => Some(&[]),
        _ => None,
    }
}

fn is_name(word: &str) -> bool {
    Name::read(word.as_bytes()).is_some()
}

fn is_list(word: &str) -> bool {
    word == "-" || word.split(',').all(is_name)
}

fn is_length(word: &str) -> bool {
    let digits = word.as_bytes();
    let begins_well = match digits {
        [b'0', _, ..] => false,
        _ => digits.iter().all(|byte| byte.is_ascii_digit()),
    };
    begins_well
        && word
            .parse::<u32>()
            .is_ok_and(|length| length <= MAX_FILE_BYTES)
}

// What is wrong with a word of this form.
fn lack_in(form: Form, word: &str) -> Option<Lack> {
    match form {
        Form::Name if !is_name(word) => Some(Lack::Name),
        Form::List if !is_list(word) => Some(Lack::List),
        Form::Length if !is_length(word) => Some(Lack::Length),
        _ => None,
    }
}

// What is wrong with the words behind a command.
fn lack_in_words(forms: &[Form], words: &str) -> Option<Lack> {
    let mut forms = forms.iter();
    for word in words.split(' ') {
        let Some(form) = forms.next() else {
            return Some(Lack::Words);
        };
        if word.is_empty() {
            return Some(Lack::Words);
        }
        if let Some(lack) = lack_in(*form, word) {
            return Some(lack);
        }
    }
    if forms.next().is_some() {
        return Some(Lack::Words);
    }
    None
}

/// What a line lacks that is bad, of which these bytes are known, with its LF or without.
pub fn lack_of(line: &[u8], has_end: bool) -> Lack {
    if line.is_empty() {
        return Lack::Text;
    }
    if line.len() >= MAX_LINE_BYTES {
        return Lack::Short;
    }
    if line.contains(&b'\r') {
        return Lack::LineFeedAlone;
    }
    let Ok(text) = std::str::from_utf8(line) else {
        return Lack::Command;
    };
    let (command, words) = match text.split_once(' ') {
        Some((command, words)) => (command, Some(words)),
        None => (text, None),
    };
    let Some(forms) = forms_of(command) else {
        return Lack::Command;
    };
    let lack = match words {
        Some(words) => lack_in_words(forms, words),
        None if forms.is_empty() => None,
        None => Some(Lack::Words),
    };
    match lack {
        Some(lack) => lack,
        None if !has_end => Lack::End,
        None => Lack::Bytes,
    }
}
