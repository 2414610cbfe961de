//! Changes that are made.
ghost use Rattle.std.specs.Prelude.{◌≡◌, ◌+◌, ◌++◌, ◌∷◌, [], ◌<◌, ◌*◌, ◌≤◌, ℕ, false, length};
ghost use Rattle.indexmap.specs.IndexSet.{spare as spare_values};
ghost use Rattle.ov_base.specs.NameLists.{is_among};
ghost use Rattle.ov_base.specs.declared.limits.TheConstants.{MAX_FILES};
ghost use Rattle.ov_graph.specs.Contents.{HasRoom};
ghost use Rattle.ov_state.specs.Contents.{nodes_of};
ghost use Rattle.ov_state.specs.Changes.{applied, node_added_if, nodes_added};
ghost use Rattle.ov_state.specs.Changes.{all_rewritten, files_grown, grants_grown, users_grown};
ghost use Rattle.ov_state.specs.Changes.{edges_in, listed_if};
ghost use Rattle.ov_state.specs.Changes.{AreNewNodes, AreOfFiles, IsNewNodeIf};
ghost use Rattle.ov_state.specs.Changes.{Fits, GrowsWithin, HasRoomFor, Suits};
ghost use Rattle.ov_state.specs.Standing.{ClosuresFollow, CatalogueGoesOn};

use crate::change::{Change, Growth, NewNode, Rewrite};
use crate::files::Files;
use crate::state::State;
use indexmap::IndexSet;
use ov_base::Name;
use ov_base_layer::BaseLayer;
use ov_graph::Graph;
use ov_tokens::{Base, Surface};

/// Appends a name, for which there is room.
fn add_user(users: &mut IndexSet<Name>, name: Name)
    requires fresh { is_among name users.old.keys ≡ false }
    requires room { 1 ≤ spare_values users.old }
    ensures { users.new.keys ≡ users.old.keys ++ name ∷ [] }
{
    let _ = users.insert(name);
}

/// Adds what grows, and takes away the file that goes.
fn grow<B: Graph<Base, W>, const W: usize>(
    users: &mut IndexSet<Name>,
    files: &mut Files,
    layer: &mut BaseLayer<B, W>,
    growth: Growth,
)
    requires fits { Fits (64 * W) users.old.keys files.old.files
        layer.old.graph.sets layer.old.grants growth }
    requires few { length (files_grown files.old.files growth) ≤ MAX_FILES }
    requires room { GrowsWithin (spare_values users.old) files.old.spare
        layer.old.spare_grants growth }
    ensures names { users.new.keys ≡ users_grown users.old.keys growth }
    ensures files { files.new.files ≡ files_grown files.old.files growth }
    ensures layer { (layer.new.grants ≡ grants_grown layer.old.grants growth)
        × (layer.new.graph ≡ layer.old.graph) }
{
    match growth {
        Growth::User(name) => add_user(users, name),
        Growth::File(file) => files.push(file),
        Growth::Access(grant) => layer.add_access(grant),
        Growth::Removal(file) => files.remove(file),
        Growth::Replacement(file, new) => files.replace(file, new),
        Growth::Nothing => {}
    }
}

/// Adds the node to the base layer, where there is one.
fn add_base<B: Graph<Base, W>, const W: usize>(layer: &mut BaseLayer<B, W>, new: Option<NewNode<W>>)
    requires planned { IsNewNodeIf layer.old.graph.sets new }
    requires room { HasRoom layer.old.graph (length (listed_if new)) (edges_in (listed_if new)) }
    ensures nodes { nodes_of layer.new.graph ≡ node_added_if (nodes_of layer.old.graph) new.entry }
    ensures grants { layer.new.grants ≡ layer.old.grants }
{
    match new {
        Some(node) => {
            let NewNode { set, cover, tokens } = node;
            layer.add(&set, cover, tokens);
        }
        None => {}
    }
}

/// Adds the nodes to the surface layer, in order.
fn add_surfaces<S: Graph<Surface, W>, const W: usize>(graph: &mut S, new: Vec<NewNode<W>>)
    requires planned { AreNewNodes (S.contents graph.old).sets new.items }
    requires room { HasRoom (S.contents graph.old) (length new.items) (edges_in new.items) }
    ensures { nodes_of (S.contents graph.new)
        ≡ nodes_added (nodes_of (S.contents graph.old)) new.entry.items }
{
    for one in new {
        let NewNode { set, cover, tokens } = one;
        graph.add(&set, cover, tokens);
    }
}

/// Gives the files their new surfaces, in order.
fn rewrite_all(files: &mut Files, rewrites: Vec<Rewrite>, epoch: u32)
    requires { AreOfFiles (length files.old.files) rewrites.items }
    ensures { files.new.files ≡ all_rewritten epoch rewrites.items files.old.files }
{
    for rewrite in rewrites {
        files.rewrite(rewrite, epoch);
    }
}

impl<B: Graph<Base, W>, S: Graph<Surface, W>, const W: usize> State<B, S, W> {
    /// Makes a change that [`State::prepare`] gave, while the catalogue is as it was then. It takes
    /// no memory.
    pub fn commit(&mut self, change: Change<W>)
        requires suits { Suits (64 * W) self.old.catalogue change }
        requires room { HasRoomFor self.old.room change }
        ensures applied { self.new.catalogue ≡ applied self.old.catalogue change.entry }
        ensures epoch { self.new.catalogue.epoch ≡ self.old.catalogue.epoch + 1 }
        ensures stands { CatalogueGoesOn (64 * W) self.old.catalogue change.entry self.new.catalogue }
        ensures closure { ClosuresFollow (64 * W) self.old.catalogue change.entry self.new.catalogue }
    {
        let Change {
            growth,
            base,
            surface,
            rewrites,
            size,
        } = change;
        // The epoch rises before the files get their surfaces: the generation of a rewritten file
        // is the epoch after the update.
        self.epoch += 1;
        grow(&mut self.users, &mut self.files, &mut self.base, growth);
        add_base(&mut self.base, base);
        add_surfaces(&mut self.surface, surface);
        rewrite_all(&mut self.files, rewrites, self.epoch);
        self.size = size;
        // The cover that was remembered is that of the base nodes that there were.
        self.remembered = None;
    }
}
