//! Labels of keys.

ghost use Rattle.std.specs.Prelude.{◌≡◌};
ghost use Rattle.ov_tokens.specs.Labels.{label_bytes, LabelsAreSpelledApart, tag_of};

use crate::message::tagged;

/// What a label's key is for.
#[derive(Clone, Copy, Debug, PartialEq, Eq)]
pub enum Kind {
    /// `B`: the derivation key of a base node.
    Derive,
    /// `A`: the access key of a base node.
    Access,
    /// `S`: the key of a surface node.
    Surface,
}

impl Kind {
    /// The tag byte of the kind's labels.
    fn tag(&self) -> u8
        ensures { result ≡ tag_of self.now }
    {
        match self {
            Kind::Derive => b'B',
            Kind::Access => b'A',
            Kind::Surface => b'S',
        }
    }
}

/// The name of a key: its kind, and the number of its node.
#[derive(Clone, Copy, Debug, PartialEq, Eq)]
pub struct Label {
    pub kind: Kind,
    pub number: u32,
}

impl Label {
    /// The five bytes of a label: the tag of its kind, and its number with the high byte first.
    pub fn bytes(&self) -> [u8; 5]
        ensures { result ≡ label_bytes self.now }
    {
        tagged(self.kind.tag(), self.number)
    }
}

/// The law of labels: two that are spelled alike are one label.
pub fn labels_are_spelled_apart()
    ensures { LabelsAreSpelledApart }
{}
