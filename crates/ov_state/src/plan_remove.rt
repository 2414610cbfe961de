//! Removals as changes.
ghost use Rattle.std.specs.Prelude.{◌≡◌, ◌≤◌, ◌*◌, ℕ, List, is_some, true, IfNone};
ghost use Rattle.ov_base.specs.declared.limits.TheConstants.{MAX_STORE_BYTES};
ghost use Rattle.ov_history.specs.Asking.{refusal_at};
ghost use Rattle.ov_history.specs.Catalogue.{matrix_shown};
ghost use Rattle.ov_history.specs.History.{Removed};
ghost use Rattle.ov_history.specs.Lists.{byte_sum};
ghost use Rattle.ov_history.specs.Places.{change_at, gone, living_at};
ghost use Rattle.ov_record.specs.Briefs.{BriefRemove};
ghost use Rattle.ov_state.specs.Creations.{IsRemoval};
ghost use Rattle.ov_state.specs.Plans.{Prepares};

use crate::change::{Change, Growth};
use crate::fault::PrepareFault;
use crate::state::State;
use ov_base::Refusal;
use ov_graph::Graph;
use ov_tokens::{Base, Surface};
use std::alloc::Global;

impl<B: Graph<Base, W>, S: Graph<Surface, W>, const W: usize> State<B, S, W> {
    /// Why a removal is refused, if it is. It makes no nodes, so that they are never too many.
    pub(crate) fn refusal_remove(&self, file: u32) -> Option<Refusal>
        ensures why { result ≡ refusal_at self.now.catalogue (Removed file) }
        ensures there { IfNone result (is_some (living_at self.now.catalogue.files file) ≡ true) }
    {
        self.known();
        if !self.is_file(file) {
            Some(Refusal::NoFile)
        } else if self.is_spent() {
            Some(Refusal::Spent)
        } else {
            None
        }
    }

    /// How many bytes all files have but this one.
    pub(crate) fn size_without(&self, file: u32) -> u64
        requires { is_some (living_at self.now.catalogue.files file) ≡ true }
        ensures left { result ≡ byte_sum (change_at gone file
            (matrix_shown self.now.catalogue).files) }
        ensures few { result ≤ MAX_STORE_BYTES }
    {
        self.known();
        self.size - u64::from(self.entry(file).length)
    }

    /// The change that takes a file away. It takes no memory.
    fn removal(&self, alloc: Global, file: u32) -> Change<W>
        requires { is_some (living_at self.now.catalogue.files file) ≡ true }
        ensures { IsRemoval self.now.catalogue file result }
    {
        Change {
            growth: Growth::Removal(file),
            base: None,
            surface: Vec::new(alloc),
            rewrites: Vec::new(alloc),
            size: self.size_without(file),
        }
    }

    /// The removal of a file as a change. The holders of base nodes stay, and with them the wanted
    /// surface of each other file: nothing is rewritten.
    pub(crate) fn plan_remove(&self, alloc: Global, file: u32) -> Result<Change<W>, PrepareFault>
        ensures { (master : List ℕ)
            → Prepares (64 * W) master self.now.catalogue (BriefRemove file) result }
    {
        self.known();
        if let Some(why) = self.refusal_remove(file) {
            return Err(PrepareFault::Refused(why));
        }
        Ok(self.removal(alloc, file))
    }
}
