//! Room for a change.
ghost use Rattle.std.specs.Prelude.{◌≡◌, ◌≤◌, IfSome, OnOk, length};
ghost use Rattle.indexmap.specs.IndexSet.{spare as spare_values};
ghost use Rattle.ov_graph.specs.Contents.{HasRoom};
ghost use Rattle.ov_state.specs.Changes.{edges_in, listed_if, GrowsWithin, HasRoomFor};

use crate::change::{Change, Growth, NewNode};
use crate::files::Files;
use crate::state::State;
use indexmap::IndexSet;
use ov_base::{Memory, Name};
use ov_base_layer::BaseLayer;
use ov_graph::Graph;
use ov_tokens::{Base, Surface};

/// How many edges come into these nodes, where a `u32` can say it.
fn edge_count<const W: usize>(new: &[NewNode<W>]) -> Option<u32>
    ensures { IfSome result (λ count. count ≡ edges_in new.now) }
{
    let mut count = 0u32;
    for one in new {
        let edges = u32::try_from(one.tokens.as_slice().len()).ok()?;
        count = count.checked_add(edges)?;
    }
    Some(count)
}

/// Makes room for what grows.
fn reserve_growth<B: Graph<Base, W>, const W: usize>(
    users: &mut IndexSet<Name>,
    files: &mut Files,
    layer: &mut BaseLayer<B, W>,
    growth: &Growth,
) -> Result<(), Memory>
    ensures users { users.new.keys ≡ users.old.keys }
    ensures files { files.new.files ≡ files.old.files }
    ensures graph { layer.new.graph ≡ layer.old.graph }
    ensures grants { layer.new.grants ≡ layer.old.grants }
    ensures room { OnOk result (GrowsWithin (spare_values users.new) files.new.spare
        layer.new.spare_grants growth.now) }
{
    match growth {
        Growth::User(_) => users.reserve(1)?,
        Growth::File(_) => files.reserve()?,
        Growth::Access(_) => layer.reserve_access()?,
        // A file that goes leaves room.
        Growth::Removal(_) => {}
        Growth::Replacement(_, _) => files.reserve()?,
        Growth::Nothing => {}
    }
    Ok(())
}

/// Makes room for the node in the base layer, where there is one.
fn reserve_base<B: Graph<Base, W>, const W: usize>(
    layer: &mut BaseLayer<B, W>,
    new: &Option<NewNode<W>>,
) -> Result<(), Memory>
    ensures sets { layer.new.graph.sets ≡ layer.old.graph.sets }
    ensures edges { layer.new.graph.edges ≡ layer.old.graph.edges }
    ensures grants { layer.new.grants ≡ layer.old.grants }
    ensures access { layer.new.spare_grants ≡ layer.old.spare_grants }
    ensures room { OnOk result (HasRoom layer.new.graph
        (length (listed_if new.now)) (edges_in (listed_if new.now))) }
{
    match new {
        Some(one) => match u32::try_from(one.tokens.as_slice().len()) {
            Ok(edges) => layer.reserve(1, edges),
            Err(_) => Err(Memory),
        },
        None => Ok(()),
    }
}

/// Makes room for the nodes in the surface layer.
fn reserve_surface<S: Graph<Surface, W>, const W: usize>(
    graph: &mut S,
    new: &[NewNode<W>],
) -> Result<(), Memory>
    ensures sets { (S.contents graph.new).sets ≡ (S.contents graph.old).sets }
    ensures edges { (S.contents graph.new).edges ≡ (S.contents graph.old).edges }
    ensures room { OnOk result
        (HasRoom (S.contents graph.new) (length new.now) (edges_in new.now)) }
{
    let Ok(sets) = u32::try_from(new.len()) else {
        return Err(Memory);
    };
    match edge_count(new) {
        Some(edges) => graph.reserve(sets, edges),
        None => Err(Memory),
    }
}

impl<B: Graph<Base, W>, S: Graph<Surface, W>, const W: usize> State<B, S, W> {
    /// Makes the room that a change takes.
    pub(crate) fn make_room(&mut self, change: &Change<W>) -> Result<(), Memory>
        ensures same { self.new.catalogue ≡ self.old.catalogue }
        ensures room { OnOk result (HasRoomFor self.new.room change.now) }
    {
        reserve_growth(
            &mut self.users,
            &mut self.files,
            &mut self.base,
            &change.growth,
        )?;
        reserve_base(&mut self.base, &change.base)?;
        reserve_surface(&mut self.surface, &change.surface)
    }
}
