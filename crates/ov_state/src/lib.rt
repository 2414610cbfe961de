//! The catalogue of a store, changed by one update at a time.
//!
//! A [`State`] is the users and the files by number and by name, the base layer with its access
//! tokens over one graph, and the surface layer over another; any two [`ov_graph::Graph`]s will
//! do. It has no bytes of files: an update comes to it as a [`Brief`], and it answers which files'
//! stored bytes the layer above has to make new.
//!
//! ```text
//! Brief ── prepare ────────────────────────────────────────────────┐
//!   lookup      why it is refused: names, numbers, limits          │
//!   relisting   the list that changes, or why not                  │
//!   site        a new file's place                                 │
//!   remembering the base cover, where it was asked for before      │
//!   collecting  the wanted surface of each file that may move      │
//!   rewrites    the files that get another surface by it           │
//!   new_nodes   the surface nodes that these need                  │
//!   plan_new, plan_list,                 all that as a change      │
//!   plan_remove, plan_replace                                      │
//!   room        the memory that it takes                           │
//!        ┌──────────────────────────────────────────── Change ◄────┘
//!        ├─► rewrites()   file, length, old and new surface, by number
//!        └─► commit       users, files, nodes, access tokens, surfaces
//! ```
//!
//! An update is made in two calls. [`State::prepare`] answers a [`Change`], or why there is none,
//! takes all the memory that the change needs, and leaves the catalogue as it was.
//! [`State::commit`] makes the change: it takes no memory and can't fail. So an update can be
//! written down between the two.
//!
//! A file that is removed is gone: its name and its entry are forgotten, and its number isn't given
//! to another. Its base node and the access tokens to that node stay, since other files may be
//! there. So the holders stay, and a removal rewrites no file (`removals_rewrite_no_file` of
//! ov_history).
//!
//! A file that is replaced is gone too, and a new one has its name, its list and the next number.
//! The new one is at the base node of the list as it is now: who was taken off the list before
//! holds that node only where another file of it was given to them.
//!
//! A state is given the surface master with each update and never the base master. It makes the
//! surface layer's tokens; those of the base layer come with the update.
//!
//! **What a contract sees** is one value, `Held`: the catalogue (`Catalogue` of ov_history), and
//! for how many more of each there is room.
//!
//! * `prepare` takes an update as it is spelled: a replacement names its file. A history has the
//!   file's number there, by the names that the catalogue shows (`numbered_at` of
//!   ov_history).
//! * `prepare` gives a change only for an update that isn't refused and has its parts. What the
//!   change makes is `catalogue_after`, the definition of one update, and its rewrites are
//!   `rewrites_of`, each file once. Otherwise it names the refusal, or the place of the wrong
//!   part, or memory was refused. Whatever history the catalogue stands for, that is what the
//!   history says of the update. An update that has a change is within the limits of its spelling.
//! * `commit` asks that the change suits the catalogue (`Suits`) and that there is room for it
//!   (`HasRoomFor`); both hold behind a `prepare` that gave it. Afterwards the epoch is one more,
//!   the catalogue stands for the history with the update, and each user's closure over the
//!   published tokens is the matrix of that history.
//! * [`closures_are_the_matrix`] does nothing; its contract is what holds of every catalogue that
//!   stands for a history.
//! * [`State::known`] does nothing; its contract is what holds of every state (`IsWell`): its
//!   catalogue is sound, each file that is there has its wanted surface, and no limit is passed.
//! * The queries give the epoch, the mode, sizes, numbers and names, files, the holders of a base
//!   node, and the list of a file, which is read off the layers. They find no file that is gone. It
//!   counts among the numbers that were given out, and its bytes don't count.
//! * `ask_enrol`, `ask_grant`, `ask_revoke`, `ask_remove`, `cover` and `replan` tell an owner,
//!   before an update, the numbers that it needs, or why the update would be refused. They touch no
//!   bytes, and plan no surface nodes: of these they only count which sets would be new. A question
//!   about a list and its update take the same steps: one decision on the list, and one pass over
//!   the files that may move, with two collectors. What `cover` or `replan` told can be given back
//!   by [`State::remember`], so that the creation or the replacement needn't plan it again.
//! * [`State::chain`] is refused exactly where a read is, unless memory is. It gives a reader of a
//!   file the chains from the reader's two roots to the file's keys ([`Chained`]); over true tokens
//!   they lead to these keys.
//!
//! | file in `specs/` | says |
//! |---|---|
//! | `Entries` | files and rewrites of the code in the words of histories |
//! | `Contents` | `Held`, and what holds of every state |
//! | `Plans` | briefs, and what `prepare` answers |
//! | `Places` | where an update's parts are in its spelling |
//! | `Changes` | what a change makes, where it suits, and the room that it takes |
//! | `Standing` | what a catalogue stands for, before and after a change |
//! | `Queries` | numbers, sizes and lists |
//! | `Asking` | what an owner is told before an update |
//! | `Remembering` | what is kept of a question until the update |
//! | `Chains` | chains to a file's keys, and where they lead |
//! | `Faults` | a graph's refusal as a fault of `prepare` |
//! | `Relistings`, `NewFiles`, `Creations` | how changes are planned: for the inside alone |
//! | `NewSets` | which surface sets are new, for questions: for the inside alone |
//!
//! Sets of users have W words; [`WIDTH`] is the least that holds all users of a store, and
//! [`Catalogue`] is the state of that width.
//!
//! What a grant or a revocation costs, and its question, depends on the nodes of the layers and not
//! on how many other files there are: a few are looked at on the way to the file, which is found by
//! halves. A grant in Delta by which the holders of a base node grow is the one exception. It goes
//! through the files of that node, since bare ones get a surface, and looks at none of another node
//! after that. A creation looks at a few files to find its file's place among them, and moves the
//! numbers behind it, four bytes each. A removal looks through these numbers for that of its file,
//! and moves the names behind that of its file. A replacement does what a removal and a creation
//! do. All this is read off the code, and no contract says it.
//!
//! Nothing is claimed of secrecy, nor that memory isn't refused.
#![tactic(auto)]

mod asking;
mod brief;
mod by_node;
mod chained;
mod chains;
mod change;
mod closures;
mod collecting;
mod commit;
mod covering;
mod fault;
mod files;
mod lookup;
mod new_nodes;
mod new_sets;
mod places;
mod plan_list;
mod plan_new;
mod plan_remove;
mod plan_replace;
mod prepare;
mod queries;
mod relisting;
mod remembering;
mod rewrites;
mod room;
mod site;
mod state;

pub use asking::Asked;
pub use brief::Brief;
pub use chained::Chained;
pub use change::{Change, Rewrite};
pub use closures::closures_are_the_matrix;
pub use covering::Planned;
pub use fault::{ChainFault, PrepareFault};
pub use files::FileEntry;
pub use places::parts_stand_at_their_place;
pub use queries::Sizes;
pub use state::{Catalogue, LayerGraph, State, WIDTH};
