//! What a reader needs to read a file.
ghost use Rattle.std.specs.Prelude.{◌≡◌, ◌<◌, is_some, length, true, IfOk};
ghost use Rattle.ov_base.specs.Sets.{Has};
ghost use Rattle.ov_history.specs.Places.{living_at};
ghost use Rattle.ov_history.specs.Keys.{AreTrueTokens};
ghost use Rattle.ov_history.specs.Layers.{list_at};
ghost use Rattle.ov_history.specs.Masters.{Masters};
ghost use Rattle.ov_history.specs.Catalogue.{filed_at, outline, place_of_file};
ghost use Rattle.ov_history.specs.Asking.{file_named, user_named};
ghost use Rattle.ov_state.specs.Queries.{AnswersReader};
ghost use Rattle.ov_state.specs.Chains.{AnswersChain, IsChained, LeadsToKeys};

use crate::chains::{base_chain, surface_chain};
use crate::fault::ChainFault;
use crate::state::State;
use ov_base::{Memory, Name, Refusal};
use ov_graph::Graph;
use ov_tokens::{Base, Chain, Surface};
use std::alloc::Global;

/// The chains from the roots of a user to the keys of a file, and what else is needed to read it:
/// the epoch, the file's number, how many bytes are stored, its generation, and the tag of its
/// plaintext.
#[derive(Drop)]
pub struct Chained {
    pub epoch: u32,
    pub file: u32,
    pub length: u32,
    pub generation: u32,
    pub tag: [u8; 32],
    pub base: Chain,
    pub surface: Option<Chain>,
}

impl<B: Graph<Base, W>, S: Graph<Surface, W>, const W: usize> State<B, S, W> {
    /// The numbers of a user and a file, where the user may read the file.
    fn reader(&self, user: &Name, file: &Name) -> Result<(u32, u32), Refusal>
        ensures { AnswersReader self.now.catalogue user.now file.now result }
    {
        self.known();
        let Some(user) = self.user_number(user) else {
            return Err(Refusal::NoUser);
        };
        let Some(file) = self.file_number(file) else {
            return Err(Refusal::NoFile);
        };
        if self.list_of(file).contains(user) {
            Ok((user, file))
        } else {
            Err(Refusal::NoPath)
        }
    }

    /// The chains of a user who is in the file's list.
    fn chained(&self, alloc: Global, user: u32, file: u32) -> Result<Chained, Memory>
        requires user { user < length self.now.catalogue.users }
        requires file { is_some (living_at self.now.catalogue.files file) ≡ true }
        requires listed { Has (list_at (outline self.now.catalogue)
            (place_of_file (filed_at self.now.catalogue file))) user }
        ensures { IfOk result (λ chained. IsChained self.now.catalogue user file chained) }
    {
        self.known();
        let entry = self.entry(file);
        let base = base_chain(alloc, &self.base, user, entry.node)?;
        let surface = surface_chain(alloc, &self.surface, user, entry.surface)?;
        Ok(Chained {
            epoch: self.epoch,
            file,
            length: entry.length,
            generation: entry.generation,
            tag: entry.tag,
            base,
            surface,
        })
    }

    /// A user's chains to a file. It is refused exactly where a read is: with NoUser or NoFile
    /// where the one or the other isn't there, and with NoPath where the user isn't in the list.
    pub fn chain(&self, alloc: Global, user: &Name, file: &Name) -> Result<Chained, ChainFault>
        ensures chain { AnswersChain self.now.catalogue (user_named self.now.catalogue user.now)
            (file_named self.now.catalogue file.now) result }
        ensures keys { (k : Masters) → AreTrueTokens k self.now.catalogue
            → IfOk result (λ chained.
            LeadsToKeys k (filed_at self.now.catalogue chained.file) chained) }
    {
        let (user, file) = self.reader(user, file)?;
        Ok(self.chained(alloc, user, file)?)
    }
}
