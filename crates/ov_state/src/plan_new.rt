//! Enrolments and creations as changes.
ghost use Rattle.std.specs.Prelude.{◌≡◌, ◌≤◌, ◌<◌, ◌+◌, ◌*◌, ℕ, List, [], ◌∷◌, length, IfNone};
ghost use Rattle.std.specs.Prelude.{false, IfOk};
ghost use Rattle.ov_base.specs.NameLists.{is_among};
ghost use Rattle.ov_base.specs.declared.limits.TheConstants.{LAST_EPOCH, MAX_FILE_BYTES};
ghost use Rattle.ov_base.specs.declared.limits.TheConstants.{MAX_SET_WORDS, MAX_USERS};
ghost use Rattle.ov_history.specs.Asking.{refusal_at};
ghost use Rattle.ov_history.specs.History.{Enrolled};
ghost use Rattle.ov_history.specs.Refusals.{first_of_tests};
ghost use Rattle.ov_record.specs.Briefs.{BriefCreate, BriefEnrol};
ghost use Rattle.ov_state.specs.Entries.{filed_names};
ghost use Rattle.ov_state.specs.Plans.{Prepares};
ghost use Rattle.ov_state.specs.NewFiles.{tests_before};
ghost use Rattle.ov_state.specs.Creations.{alone, new_entry, IsCreation, IsEnrolment};

use crate::change::{Change, Growth, NewNode, Rewrite};
use crate::fault::PrepareFault;
use crate::files::FileEntry;
use crate::site::{Site, new_node};
use crate::state::State;
use ov_base::{Memory, Name, Refusal, UserSet};
use ov_graph::{Cover, Graph};
use ov_tokens::{Base, Master, Numbers, Surface, Tokens};
use std::alloc::Global;

/// The node of a new user alone, after this many nodes. It takes no memory.
fn alone<const W: usize>(alloc: Global, nodes: u32, user: u32) -> NewNode<W>
    requires width { (1 ≤ W) × (W ≤ MAX_SET_WORDS) }
    requires user { user < 64 * W }
    ensures { result ≡ alone nodes user }
{
    NewNode {
        set: UserSet::empty().with(user),
        cover: Cover {
            node: nodes,
            fresh: true,
            from: Numbers::new(alloc),
        },
        tokens: Tokens::new(alloc),
    }
}

/// The list of one node, or of one rewrite.
pub(crate) fn only<T: Drop>(alloc: Global, item: T) -> Result<Vec<T>, Memory>
    ensures { IfOk result (λ list. list.items ≡ item ∷ []) }
{
    let mut list = Vec::new(alloc);
    list.push(item)?;
    Ok(list)
}

/// The place of the number of tokens in the spelling of a new file of this name, where its list has
/// this many words. A replacement spells no list.
pub(crate) fn tokens_place(name: &Name, words: usize) -> u32
    requires { words ≤ MAX_SET_WORDS }
    ensures { result ≡ 1 + (1 + length name.now) + 8 * words }
{
    (2 + name.as_bytes().len() + 8 * words) as u32
}

impl<B: Graph<Base, W>, S: Graph<Surface, W>, const W: usize> State<B, S, W> {
    /// Why an enrolment is refused, if it is.
    pub(crate) fn refusal_enrol(&self, name: &Name) -> Option<Refusal>
        ensures { result ≡ refusal_at self.now.catalogue (Enrolled name.now) }
    {
        self.known();
        if self.has_user(name) {
            Some(Refusal::Taken)
        } else if self.is_full_of_users() {
            Some(Refusal::UsersFull)
        } else if self.is_full_of_nodes() {
            Some(Refusal::NodesFull)
        } else if self.is_spent() {
            Some(Refusal::Spent)
        } else {
            None
        }
    }

    /// The change that enrols a user, for whom there is room.
    fn enrolment(&self, alloc: Global, name: Name) -> Result<Change<W>, Memory>
        requires { length self.now.catalogue.users < MAX_USERS }
        ensures { IfOk result (IsEnrolment self.now.catalogue name) }
    {
        self.known();
        let user = self.users.len() as u32;
        let base = alone(alloc, self.base.graph().count(), user);
        let surface = only(alloc, alone(alloc, self.surface.count(), user))?;
        Ok(Change {
            growth: Growth::User(name),
            base: Some(base),
            surface,
            rewrites: Vec::new(alloc),
            size: self.size,
        })
    }

    /// The enrolment of a user as a change.
    pub(crate) fn plan_enrol(&self, alloc: Global, name: Name) -> Result<Change<W>, PrepareFault>
        ensures { (master : List ℕ)
            → Prepares (64 * W) master self.now.catalogue (BriefEnrol name) result }
    {
        self.known();
        if let Some(why) = self.refusal_enrol(&name) {
            return Err(PrepareFault::Refused(why));
        }
        Ok(self.enrolment(alloc, name)?)
    }

    /// Why a creation of a file of this many bytes is refused, if it is before its nodes and its
    /// epoch are looked at.
    pub(crate) fn refusal_create(
        &self,
        name: &Name,
        list: &UserSet<W>,
        size: u32,
    ) -> Option<Refusal>
        requires { size ≤ MAX_FILE_BYTES }
        ensures why { result ≡ first_of_tests (tests_before self.now.catalogue
            name.now list.now size) }
        ensures fresh { IfNone result
            (is_among name.now (filed_names self.now.catalogue.files) ≡ false) }
    {
        if self.has_file(name) {
            Some(Refusal::Taken)
        } else if !self.has_all(list) {
            Some(Refusal::NoUser)
        } else if self.is_full_of_files() {
            Some(Refusal::FilesFull)
        } else if self.is_full_of_bytes(size) {
            Some(Refusal::BytesFull)
        } else {
            None
        }
    }

    /// A new file of this name and of this many bytes at its base node, before it has its surface.
    pub(crate) fn new_entry(&self, name: Name, node: u32, tag: [u8; 32], size: u32) -> FileEntry
        requires { self.now.catalogue.epoch < LAST_EPOCH }
        ensures { result ≡ new_entry self.now.catalogue name node tag size }
    {
        FileEntry {
            name,
            node,
            surface: None,
            generation: self.epoch + 1,
            tag,
            length: size,
        }
    }

    /// The change that files a new file at its place.
    fn creation(
        &self,
        alloc: Global,
        site: Site<W>,
        name: Name,
        list: UserSet<W>,
        tokens: Tokens,
        tag: [u8; 32],
        size: u32,
    ) -> Result<Change<W>, Memory>
        requires size { size ≤ MAX_FILE_BYTES }
        requires epoch { self.now.catalogue.epoch < LAST_EPOCH }
        ensures { IfOk result (IsCreation self.now.catalogue site.entry
            name list.entry tokens tag size) }
    {
        self.known();
        let Site { cover, surface, to } = site;
        let rewrite = Rewrite {
            file: self.files.count(),
            length: size,
            old: None,
            new: to,
        };
        let entry = self.new_entry(name, cover.node, tag, size);
        Ok(Change {
            growth: Growth::File(entry),
            base: new_node(list, cover, tokens),
            surface,
            rewrites: only(alloc, rewrite)?,
            size: self.size + u64::from(size),
        })
    }

    /// The creation of a file as a change, which gets its surface under the surface master.
    pub(crate) fn plan_create(
        &self,
        alloc: Global,
        surface: &Master,
        name: Name,
        list: UserSet<W>,
        tokens: Tokens,
        tag: [u8; 32],
        size: u32,
    ) -> Result<Change<W>, PrepareFault>
        requires { size ≤ MAX_FILE_BYTES }
        ensures { Prepares (64 * W) surface.now.bytes self.now.catalogue
            (BriefCreate name list.entry tokens tag size) result }
    {
        self.known();
        if let Some(why) = self.refusal_create(&name, &list, size) {
            return Err(PrepareFault::Refused(why));
        }
        let site = self.site(alloc, surface, &list)?;
        if self.is_spent() {
            return Err(PrepareFault::Refused(Refusal::Spent));
        }
        if tokens.as_slice().len() != site.cover.from.as_slice().len() {
            return Err(PrepareFault::BadPlan {
                at: tokens_place(&name, W),
            });
        }
        Ok(self.creation(alloc, site, name, list, tokens, tag, size)?)
    }
}
