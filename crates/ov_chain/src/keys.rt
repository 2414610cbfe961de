//! The key at the end of a chain.

ghost use Rattle.std.specs.Prelude.{◌≡◌, ℕ, List};
ghost use Rattle.ov_tokens.specs.declared.label.Kind.{Kind};
ghost use Rattle.ov_tokens.specs.declared.label.Kind.TheVariants.{Derive};
ghost use Rattle.ov_tokens.specs.Keys.{key_of_label};
ghost use Rattle.ov_tokens.specs.Labels.{label_of};
ghost use Rattle.ov_chain.specs.Walk.{access_along, walked, last_label, AreTrue};

use ov_base::Key;
use ov_tokens::{Chain, Kind, access_key, derive};

/// The key to which a chain leads from the key of its root: that of its last label where its tokens
/// are true, and the root's where it has no step. It takes no memory.
pub fn walk(root_key: &Key, chain: &Chain) -> Key
    ensures walked { result.bytes ≡ walked root_key.now.bytes chain.now.steps }
    ensures keys { (base surface : List ℕ) (kind : Kind)
        → let from = label_of kind chain.now.root in
        root_key.now.bytes ≡ key_of_label base surface from
        → AreTrue base surface from chain.now.steps
        → result.bytes ≡ key_of_label base surface (last_label from chain.now.steps) }
{
    let mut key = *root_key;
    for step in chain.steps.as_slice() {
        key = derive(&key, step.to, &step.token);
    }
    key
}

/// The kind of the label that a base chain leads to.
fn last_kind(chain: &Chain) -> Kind
    ensures { result ≡ (last_label (label_of Derive chain.now.root) chain.now.steps).kind }
{
    match chain.steps.as_slice() {
        [.., last] => last.to.kind,
        [] => Kind::Derive,
    }
}

/// The access key to which a base chain leads from the derivation key of its root. Steps over edges
/// end at a derivation key, from which the access key is derived; an access token leads to the
/// access key itself. It takes no memory.
pub fn walk_to_access(root_key: &Key, chain: &Chain) -> Key
    ensures { result.bytes ≡ access_along root_key.now.bytes chain.now }
{
    let end = walk(root_key, chain);
    match last_kind(chain) {
        Kind::Derive => access_key(&end),
        Kind::Access | Kind::Surface => end,
    }
}
