//! The two layers of keys.

use crate::{Kind, Label, Master};
use ov_base::Key;

/// A layer of keys: the labels of its nodes, and how their keys come from the layer's master.
///
/// Generic code knows of a layer `L` that the label of node n is `label_of L.label_kind n`, that
/// its key is `node_key L.label_kind master n`, and that `L::TAG` is the tag byte of its labels.
pub trait Layer {
    ghost use Rattle.std.specs.Prelude.{◌≡◌, ℕ, List};
    ghost use Rattle.ov_tokens.specs.Keys.{node_key, key_of_kind};
    ghost use Rattle.ov_tokens.specs.Labels.{label_of, tag_of};
    ghost use Rattle.ov_tokens.specs.declared.label.Kind.{Kind};

    /// The kind of the layer's labels.
    ghost label_kind: { Kind };

    /// The tag byte of the layer's labels, as a number.
    ghost TAG: { ℕ };

    /// The tag byte of the layer's labels.
    const TAG: u8;

    /// The label of a node.
    fn label(number: u32) -> Label
        ensures { result ≡ label_of label_kind number };

    /// The key of a node's label, from the layer's master.
    fn key_of(master: &Master, number: u32) -> Key
        ensures { result.bytes ≡ node_key label_kind master.now.bytes number }
    {
        Key {
            bytes: master.mac(&Self::label(number).bytes()),
        }
    }

    /// The tag byte is that of the kind.
    ghost tag_is: { TAG ≡ tag_of label_kind };

    /// The key of a node is that of its label.
    ghost key_is: { (master : List ℕ) (number : ℕ)
        → node_key label_kind master number ≡ key_of_kind master master label_kind number };
}

/// The base layer: node n has the label `B n`.
pub struct Base;

/// The surface layer: node n has the label `S n`.
pub struct Surface;

impl Layer for Base {
    ghost use Rattle.std.specs.Prelude.{refl};
    ghost use Rattle.ov_tokens.specs.declared.label.Kind.TheVariants.{Derive};

    ghost label_kind = { Derive };

    ghost TAG = { 0x42 };

    ghost tag_is = { refl };

    ghost key_is = { λ _ _. refl };

    const TAG: u8 = b'B';

    fn label(number: u32) -> Label {
        Label {
            kind: Kind::Derive,
            number,
        }
    }
}

impl Layer for Surface {
    ghost use Rattle.std.specs.Prelude.{refl};
    ghost use Rattle.ov_tokens.specs.declared.label.Kind.TheVariants.{Surface as SurfaceLabels};

    ghost label_kind = { SurfaceLabels };

    ghost TAG = { 0x53 };

    ghost tag_is = { refl };

    ghost key_is = { λ _ _. refl };

    const TAG: u8 = b'S';

    fn label(number: u32) -> Label {
        Label {
            kind: Kind::Surface,
            number,
        }
    }
}
