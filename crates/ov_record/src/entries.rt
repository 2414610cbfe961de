//! Writing the entries of the public catalogue.

ghost use Rattle.std.specs.Prelude.{◌≡◌, ◌≤◌, ◌*◌, ◌++◌, length, OnErr, OnOk};
ghost use Rattle.std.specs.List.{flat_map};
ghost use Rattle.ov_base.specs.declared.limits.TheConstants.{MAX_SET_WORDS};
ghost use Rattle.ov_fields.specs.Entries.{access_entry, edge_field, file_entry, node_entry, user_entry};
ghost use Rattle.ov_fields.specs.Spelling.{counted, optional, u32};

use ov_base::{Memory, Name, UserSet};
use ov_fields::{append, put_name, put_set, put_token, put_u16, put_u32};
use ov_tokens::{Edge, Token};

/// Appends the entry of a user.
pub fn user_entry(
    name: &Name,
    base_root: u32,
    surface_root: u32,
    out: &mut Vec<u8>,
) -> Result<(), Memory>
    ensures ok { OnOk result (out.new.items
        ≡ out.old.items ++ user_entry name.now base_root surface_root) }
    ensures err { OnErr result (out.new.items ≡ out.old.items) }
{
    let mut entry = Vec::new(*out.allocator());
    put_name(name, &mut entry)?;
    put_u32(base_root, &mut entry)?;
    put_u32(surface_root, &mut entry)?;
    append(&entry, &[], &[], out)
}

fn put_edges(edges: &[Edge], out: &mut Vec<u8>) -> Result<(), Memory>
    requires { length edges.now ≤ 65535 }
    ensures { OnOk result (out.new.items ≡ out.old.items ++ counted edge_field edges.now) }
{
    put_u16(edges.len() as u16, out)?;
    put_each_edge(edges, out)
}

fn put_each_edge(edges: &[Edge], out: &mut Vec<u8>) -> Result<(), Memory>
    ensures { OnOk result (out.new.items ≡ out.old.items ++ flat_map edge_field edges.now) }
{
    for edge in edges {
        put_edge(edge, out)?;
    }
    Ok(())
}

fn put_edge(edge: &Edge, out: &mut Vec<u8>) -> Result<(), Memory>
    ensures { OnOk result (out.new.items ≡ out.old.items ++ edge_field edge.now) }
{
    put_u32(edge.from, out)?;
    put_token(&edge.token, out)
}

/// Appends the entry of a node of either layer, for a W from 1 to `MAX_SET_WORDS`.
pub fn node_entry<const W: usize>(
    set: &UserSet<W>,
    edges: &[Edge],
    out: &mut Vec<u8>,
) -> Result<(), Memory>
    requires width { (1 ≤ W) × (W ≤ MAX_SET_WORDS) }
    requires edges { length edges.now ≤ 65535 }
    ensures ok { OnOk result (out.new.items
        ≡ out.old.items ++ node_entry (8 * W) set.now edges.now) }
    ensures err { OnErr result (out.new.items ≡ out.old.items) }
{
    let mut entry = Vec::new(*out.allocator());
    put_set(set, &mut entry)?;
    put_edges(edges, &mut entry)?;
    append(&entry, &[], &[], out)
}

/// Appends the entry of an access token.
pub fn access_entry(user: u32, node: u32, token: &Token, out: &mut Vec<u8>) -> Result<(), Memory>
    ensures ok { OnOk result (out.new.items ≡ out.old.items ++ access_entry user node token.now) }
    ensures err { OnErr result (out.new.items ≡ out.old.items) }
{
    let mut entry = Vec::new(*out.allocator());
    put_u32(user, &mut entry)?;
    put_u32(node, &mut entry)?;
    put_token(token, &mut entry)?;
    append(&entry, &[], &[], out)
}

fn put_surface(surface: Option<u32>, out: &mut Vec<u8>) -> Result<(), Memory>
    ensures { OnOk result (out.new.items ≡ out.old.items ++ optional u32 surface) }
{
    match surface {
        None => out.push(0)?,
        Some(node) => {
            out.push(1)?;
            put_u32(node, out)?;
        }
    }
    Ok(())
}

/// Appends the entry of a file: its base node, length, generation and tag, and its surface node
/// where it has one.
pub fn file_entry(
    name: &Name,
    node: u32,
    length: u32,
    generation: u32,
    tag: &[u8; 32],
    surface: Option<u32>,
    out: &mut Vec<u8>,
) -> Result<(), Memory>
    ensures ok { OnOk result (out.new.items
        ≡ out.old.items ++ file_entry name.now node length generation tag.now surface) }
    ensures err { OnErr result (out.new.items ≡ out.old.items) }
{
    let mut entry = Vec::new(*out.allocator());
    put_name(name, &mut entry)?;
    put_u32(node, &mut entry)?;
    put_u32(length, &mut entry)?;
    put_u32(generation, &mut entry)?;
    entry.extend_from_slice(tag)?;
    put_surface(surface, &mut entry)?;
    append(&entry, &[], &[], out)
}
