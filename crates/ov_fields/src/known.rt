//! What is known of names, tags and tokens by their types alone. The functions do nothing: a caller
//! that names one may use what its contract says.

ghost use Rattle.std.specs.Prelude.{◌≡◌, length};
ghost use Rattle.std.specs.List.{AllByRecursion};
ghost use Rattle.ov_base.specs.NameLists.{AreDistinct};
ghost use Rattle.ov_base.specs.Names.{IsName};
ghost use Rattle.ov_fields.specs.Spelling.{IsToken};

use ov_base::{Name, Names};
use ov_tokens::Token;

/// A name has the bytes of one.
pub fn known_name(name: &Name)
    ensures { IsName name.now }
{
    let _ = name.as_bytes();
}

fn known_each_name(names: &[Name])
    ensures { AllByRecursion IsName names.now }
{
    for name in names {
        known_name(name);
    }
}

/// Names have the bytes of names, and none of them comes twice.
pub fn known_names(names: &Names)
    ensures { AllByRecursion IsName names.now × AreDistinct names.now }
{
    known_each_name(names.as_slice());
}

/// A tag has 32 bytes.
pub fn known_tag(tag: &[u8; 32])
    ensures { length tag.now ≡ 32 }
{
    let _tag = *tag;
}

/// A token has 32 bytes.
pub fn known_token(token: &Token)
    ensures { IsToken token.now }
{
    known_tag(&token.bytes)
}

/// Each of the tokens has 32 bytes.
pub fn known_tokens(tokens: &[Token])
    ensures { AllByRecursion IsToken tokens.now }
{
    for token in tokens {
        known_token(token);
    }
}
