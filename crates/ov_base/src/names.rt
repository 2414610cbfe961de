//! Lists of distinct names.
ghost use Rattle.std.specs.Prelude.{◌≡◌, ℕ, List, [], not, OnOk, OnErr, IfOk};
ghost use Rattle.ov_base.specs.NameLists.{AreDistinct, is_among, with_name};

use crate::{Memory, Name};
use indexmap::IndexSet;
use std::alloc::Global;
use std::marker::Model;

/// Names in order, none of which comes twice.
#[derive(Drop)]
pub struct Names {
    names: IndexSet<Name>,
}

impl Model for Names {
    ghost Value = { List (List ℕ) };

    ghost view = { λ n. n.names.keys };
}

impl Names {
    /// No names, which takes no memory.
    pub fn new(alloc: Global) -> Names
        ensures { result ≡ [] }
    {
        Names {
            names: IndexSet::new(alloc),
        }
    }

    /// Whether the name is there.
    pub fn contains(&self, name: &Name) -> bool
        ensures { result ≡ is_among name.now self.now }
    {
        self.names.contains(name)
    }

    /// Appends the name where it isn't there yet, and says whether it wasn't.
    pub fn insert(&mut self, name: Name) -> Result<bool, Memory>
        ensures ok { OnOk result (self.new ≡ with_name self.old name) }
        ensures fresh { IfOk result (λ fresh. fresh ≡ not (is_among name self.old)) }
        ensures err { OnErr result (self.new ≡ self.old) }
    {
        Ok(self.names.insert(name)?)
    }

    /// The names, in order.
    pub fn as_slice(&self) -> &[Name]
        ensures names { result.now ≡ self.now }
        ensures distinct { AreDistinct self.now }
    {
        self.names.as_slice()
    }
}
