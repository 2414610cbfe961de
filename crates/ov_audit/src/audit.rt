//! An audit.
ghost use Rattle.std.specs.Prelude.{◌≡◌, ◌↔◌, ◌+◌, ◌<◌, ◌≤◌, [], IfOk, OnErr, OnOk, true};
ghost use Rattle.ov_exposure.specs.Auditing.{findings_from};
ghost use Rattle.ov_audit.specs.Seen.{IsNext, SeesNext};

use crate::finding::{Finding, Findings, push_found};
use crate::marks::Marks;
use crate::note::{Note, look_at_all, push_new};
use ov_base::{Memory, Users};
use ov_state::Catalogue;
use std::alloc::Global;
use std::marker::Model;

/// What was noted of the files of a store, while one state after the other was seen.
#[derive(Drop)]
pub struct Audit {
    users: Users,
    server: bool,
    epoch: u32,
    notes: Vec<Note>,
}

impl Model for Audit {
    ghost use Rattle.std.specs.Prelude.{◌≤◌, length};
    ghost use Rattle.ov_audit.specs.Notes.{plain_notes};
    ghost use Rattle.ov_audit.specs.Seen.{Seen};
    ghost use Rattle.ov_base.specs.declared.limits.TheConstants.{MAX_FILES};

    ghost Value = { Seen };

    ghost view = { λ a. record {
      users = a.users;
      server = a.server;
      epoch = a.epoch;
      notes = plain_notes a.notes.items;
    } };

    ghost invariant = { λ a. length a.notes.items ≤ MAX_FILES };
}

// Whether an epoch is the next one.
fn is_one_more(last: u32, epoch: u32) -> bool
    ensures { (result ≡ true) ↔ (epoch ≡ last + 1) }
{
    last < epoch && epoch - last == 1
}

// Whether there are as many files as were noted, or one more, which is there.
fn may_follow(count: u32, files: u32, there: bool) -> bool
    ensures { (result ≡ true) ↔ ((count ≤ files) × (files ≤ count + 1)
        × (count < files → there ≡ true)) }
{
    if files == count {
        return true;
    }
    there && count < files && files - count == 1
}

impl Audit {
    /// An audit of these users, and of the server with them where it helps, of a store that began at
    /// this epoch. It has seen no state yet, and takes no memory.
    pub fn new(alloc: Global, users: Users, first: u32, server: bool) -> Audit
        ensures users { result.users ≡ users }
        ensures server { result.server ≡ server }
        ensures epoch { result.epoch ≡ first }
        ensures notes { result.notes ≡ [] }
    {
        Audit {
            users,
            server,
            epoch: first,
            notes: Vec::new(alloc),
        }
    }

    /// Whether this state may be the next that is looked at: it has the next epoch, each file that was
    /// noted, and at most one more, which is there.
    pub fn is_next(&self, state: &Catalogue) -> bool
        ensures { (result ≡ true) ↔ IsNext self.now state.now.catalogue }
    {
        state.known();
        if !is_one_more(self.epoch, state.epoch()) {
            return false;
        }
        let count = self.notes.len() as u32;
        let there = state.file_at(count).is_some();
        may_follow(count, state.sizes().files, there)
    }

    /// Looks at the state after the next update. Where memory is refused, the audit is as it was.
    pub fn see(&mut self, alloc: Global, state: &Catalogue) -> Result<(), Memory>
        requires { IsNext self.old state.now.catalogue }
        ensures seen { OnOk result (SeesNext self.old state.now.catalogue self.new) }
        ensures kept { OnErr result (self.new ≡ self.old) }
    {
        state.known();
        let marks = Marks::of(alloc, state, &self.users)?;
        push_new(&mut self.notes, state)?;
        look_at_all(&mut self.notes, state, &marks);
        self.epoch = state.epoch();
        Ok(())
    }

    /// The files that are exposed to the users, each with its cause, in the order of their numbers.
    /// Files that are gone are among them.
    pub fn findings(&self, alloc: Global) -> Result<Findings, Memory>
        ensures { IfOk result (λ findings.
            findings ≡ findings_from self.now.server 0 self.now.notes) }
    {
        let mut list: Vec<Finding> = Vec::new(alloc);
        for i in 0..self.notes.len() {
            push_found(&self.notes[i], i as u32, self.server, &mut list)?;
        }
        Ok(Findings::from_vec(list))
    }
}
