//! The entries of the public catalogue.
ghost use Rattle.std.specs.Prelude.{◌≡◌, ◌<◌, ◌≤◌, length, IfOk, IfSome, None, option_map};
ghost use Rattle.ov_base_layer.specs.declared.grant.Grant.{Grant};
ghost use Rattle.ov_history.specs.Places.{living_at};
ghost use Rattle.ov_state.specs.Contents.{nodes_of};
ghost use Rattle.ov_wire.specs.AnswerForm.{HasAnswerForm, IsSomeEntry};
ghost use Rattle.ov_wire.specs.declared.answer.Answer.TheVariants.{PageOf};
ghost use Rattle.ov_protocol.specs.Pages.{entry_of, node_entry_of, page_of};
ghost use Rattle.ov_server.specs.Telling.{IsLayerOfStore, PagesNode};

use crate::form::edges_have_tokens;
use ov_base::{Memory, Octets};
use ov_fields::{known_name, known_tag, known_token};
use ov_graph::Graph;
use ov_record::{access_entry, file_entry, node_entry, user_entry};
use ov_state::{Catalogue, WIDTH};
use ov_tokens::Layer;
use ov_wire::Answer;
use std::alloc::Global;

/// The entry of a user.
fn user_page(alloc: Global, state: &Catalogue, number: u32) -> Result<Option<Octets>, Memory>
    ensures entry { IfOk result (λ page.
        page ≡ page_of (entry_of state.now.catalogue 1 number)) }
    ensures form { IfOk result (λ page. IfSome page IsSomeEntry) }
{
    state.known();
    let Some(name) = state.user_at(number) else {
        return Ok(None);
    };
    known_name(name);
    let roots = state.told_of_user(number);
    let mut bytes = Vec::new(alloc);
    user_entry(name, roots.base_root, roots.surface_root, &mut bytes)?;
    Ok(Some(Octets::from_vec(bytes)))
}

/// The entry of a node of a layer.
fn node_page<L: Layer, G: Graph<L, WIDTH>>(
    alloc: Global,
    graph: &G,
    number: u32,
) -> Result<Option<Octets>, Memory>
    requires { IsLayerOfStore (nodes_of (G.contents graph.now)) }
    ensures { IfOk result (PagesNode (nodes_of (G.contents graph.now)) number) }
{
    if graph.count() <= number {
        return Ok(None);
    }
    let edges = graph.in_tokens(number);
    edges_have_tokens(edges);
    let mut bytes = Vec::new(alloc);
    node_entry(&graph.set_of(number), edges, &mut bytes)?;
    Ok(Some(Octets::from_vec(bytes)))
}

/// The entry of an access token.
fn access_page(alloc: Global, state: &Catalogue, number: u32) -> Result<Option<Octets>, Memory>
    ensures entry { IfOk result (λ page.
        page ≡ page_of (entry_of state.now.catalogue 4 number)) }
    ensures form { IfOk result (λ page. IfSome page IsSomeEntry) }
{
    state.known();
    let Some(grant) = state.base().accesses().get(number as usize) else {
        return Ok(None);
    };
    known_token(&grant.token);
    let mut bytes = Vec::new(alloc);
    access_entry(grant.user, grant.node, &grant.token, &mut bytes)?;
    Ok(Some(Octets::from_vec(bytes)))
}

/// The entry of a file that isn't there. Where its number was given out the file is gone, and its
/// entry is the byte 0, which is no name's length.
fn gone_page(alloc: Global, state: &Catalogue, number: u32) -> Result<Option<Octets>, Memory>
    requires { living_at state.now.catalogue.files number ≡ None }
    ensures entry { IfOk result (λ page.
        page ≡ page_of (entry_of state.now.catalogue 5 number)) }
    ensures form { IfOk result (λ page. IfSome page IsSomeEntry) }
{
    let given = state.sizes().files;
    if given <= number {
        return Ok(None);
    }
    let mut bytes = Vec::new(alloc);
    bytes.push(0)?;
    Ok(Some(Octets::from_vec(bytes)))
}

/// The entry of a file.
fn file_page(alloc: Global, state: &Catalogue, number: u32) -> Result<Option<Octets>, Memory>
    ensures entry { IfOk result (λ page.
        page ≡ page_of (entry_of state.now.catalogue 5 number)) }
    ensures form { IfOk result (λ page. IfSome page IsSomeEntry) }
{
    state.known();
    let Some(file) = state.file_at(number) else {
        return gone_page(alloc, state, number);
    };
    known_name(&file.name);
    known_tag(&file.tag);
    let mut bytes = Vec::new(alloc);
    file_entry(
        &file.name,
        file.node,
        file.length,
        file.generation,
        &file.tag,
        file.surface,
        &mut bytes,
    )?;
    Ok(Some(Octets::from_vec(bytes)))
}

/// The entry of a part.
fn page(alloc: Global, state: &Catalogue, part: u8, number: u32) -> Result<Option<Octets>, Memory>
    ensures entry { IfOk result (λ page.
        page ≡ page_of (entry_of state.now.catalogue part number)) }
    ensures form { IfOk result (λ page. IfSome page IsSomeEntry) }
{
    state.known();
    match part {
        1 => user_page(alloc, state, number),
        2 => node_page(alloc, state.base().graph(), number),
        3 => node_page(alloc, state.surface(), number),
        4 => access_page(alloc, state, number),
        5 => file_page(alloc, state, number),
        _ => Ok(None),
    }
}

/// The answer to a Page.
pub fn answer_page(
    alloc: Global,
    state: &Catalogue,
    part: u8,
    number: u32,
) -> Result<Answer, Memory>
    ensures answer { IfOk result (λ answer.
        answer ≡ PageOf (page_of (entry_of state.now.catalogue part number))) }
    ensures form { IfOk result HasAnswerForm }
{
    let entry = page(alloc, state, part, number)?;
    Ok(Answer::PageOf { entry })
}
