//! Marks on the nodes of a state: which of them have one of some users.
ghost use Rattle.std.specs.Prelude.{◌≡◌, ◌<◌, All, IfOk, length, map, option_map};
ghost use Rattle.ov_base.specs.Sets.{meets};
ghost use Rattle.ov_base_layer.specs.Holders.{accesses_of};
ghost use Rattle.ov_audit.specs.Marks.{AreMarksOf, listed_by, mark_at, marks_with};
ghost use Rattle.ov_state.specs.Entries.{plain_file};

use ov_base::{Memory, UserSet, Users};
use ov_base_layer::Grant;
use ov_graph::Graph;
use ov_state::{Catalogue, FileEntry};
use ov_tokens::Layer;
use std::alloc::Global;

/// For each base node whether one of the users holds it, and for each surface node whether one of
/// them is in its set.
#[derive(Drop)]
pub(crate) struct Marks {
    pub held: Vec<bool>,
    pub covered: Vec<bool>,
}

// Marks the nodes whose sets have one of the users.
fn meeting<L: Layer, G: Graph<L, W>, const W: usize>(
    alloc: Global,
    graph: &G,
    users: &UserSet<W>,
) -> Result<Vec<bool>, Memory>
    ensures { IfOk result (λ marks.
        marks.items ≡ map (meets users.now) (G.contents graph.now).sets) }
{
    let mut marks = Vec::new(alloc);
    for node in 0..graph.count() {
        marks.push(users.meets(&graph.set_of(node)))?;
    }
    Ok(marks)
}

// Marks the nodes to which one of the users was given access.
fn mark_accesses<const W: usize>(grants: &[Grant], users: &UserSet<W>, marks: &mut [bool])
    requires { All (λ grant. grant.node < length marks.old) grants.now }
    ensures { marks.new ≡ marks_with users.now (accesses_of grants.now) marks.old }
{
    for grant in grants {
        if users.contains(grant.user) {
            marks[grant.node as usize] = true;
        }
    }
}

/// The mark of this node. A node that isn't there has none.
pub(crate) fn mark_at(marks: &[bool], node: u32) -> bool
    ensures { result ≡ mark_at marks.now node }
{
    match marks.get(node as usize) {
        Some(mark) => *mark,
        None => false,
    }
}

impl Marks {
    /// The marks of these users in this state, after one pass over its nodes and access tokens.
    pub fn of(alloc: Global, state: &Catalogue, users: &Users) -> Result<Marks, Memory>
        ensures { IfOk result (λ marks.
            AreMarksOf users.now state.now.catalogue marks.held.items marks.covered.items) }
    {
        state.known();
        let base = state.base();
        let mut held = meeting(alloc, base.graph(), users)?;
        mark_accesses(base.accesses(), users, &mut held);
        let covered = meeting(alloc, state.surface(), users)?;
        Ok(Marks { held, covered })
    }

    /// Whether one of the users is in the list of this file, if it is there: in the set of its
    /// surface node or, where it has none, among the holders of its base node.
    pub fn is_listed(&self, file: Option<&FileEntry>) -> bool
        ensures { result ≡ listed_by self.now.held.items self.now.covered.items
            (option_map (λ f. plain_file f.now) file.entry) }
    {
        match file {
            None => false,
            Some(file) => match file.surface {
                None => mark_at(&self.held, file.node),
                Some(node) => mark_at(&self.covered, node),
            },
        }
    }
}
