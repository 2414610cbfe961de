//! Files by number, by name, and by base node.
ghost use Rattle.std.specs.Prelude.{◌≡◌, ◌<◌, ◌≤◌, ◌++◌, ◌∷◌, ℕ, List, [], false, length};
ghost use Rattle.std.specs.Prelude.{is_some, option_map, true, IfSome, OnOk, Some};
ghost use Rattle.ov_base.specs.NameLists.{is_among};
ghost use Rattle.ov_base.specs.Names.{IsName};
ghost use Rattle.ov_base.specs.declared.limits.TheConstants.{MAX_FILES};
ghost use Rattle.ov_history.specs.Places.{change_at, gone, living_at, IsNumber};
ghost use Rattle.ov_state.specs.Entries.{filed_names, plain_file, plain_files};
ghost use Rattle.ov_state.specs.Entries.{AreOfNode, HasName};
ghost use Rattle.ov_state.specs.Changes.{entry_rewritten, rewritten};

use crate::by_node::{count_below, entry_at, files_of_node, take_out};
use crate::change::Rewrite;
use indexmap::IndexMap;
use ov_base::{Memory, Name};
use std::alloc::Global;
use std::marker::Model;

/// A file as the catalogue has it: its name, where it is in the layers, the tag of its plaintext,
/// and how many bytes it has.
#[derive(Drop)]
pub struct FileEntry {
    pub name: Name,
    pub node: u32,
    pub surface: Option<u32>,
    pub generation: u32,
    pub tag: [u8; 32],
    pub length: u32,
}

/// The files: a file's number is its place in the list, and the names lead to numbers. So do the
/// base nodes: the numbers of the files of a node stand side by side. A file that is gone leaves
/// its place empty, since numbers are given once, and no name and no node leads there.
#[derive(Drop)]
pub(crate) struct Files {
    list: Vec<Option<FileEntry>>,
    numbers: IndexMap<Name, u32>,
    by_node: Vec<u32>,
}

impl Model for Files {
    ghost use Rattle.std.specs.Prelude.{◌*◌, ◌-◌, min, vec_capacity, vec_len};
    ghost use Rattle.indexmap.specs.IndexMap.{spare as spare_entries};
    ghost use Rattle.ov_state.specs.Entries.{plain_files, AreByNode, AreNumbered, FileList};

    ghost Value = { FileList };

    ghost view = { λ f. record {
      files = plain_files f.list.items;
      spare = min (vec_capacity f.list - vec_len f.list)
          (min (spare_entries f.numbers) (vec_capacity f.by_node - vec_len f.by_node));
    } };

    ghost invariant = { λ f. AreNumbered (plain_files f.list.items) f.numbers.entries
        × AreByNode (plain_files f.list.items) f.by_node.items };
}

/// The name of the file of this number, which is there.
fn name_at(list: &[Option<FileEntry>], number: u32) -> Name
    requires { is_some (living_at (plain_files list.now) number) ≡ true }
    ensures { HasName (plain_files list.now) number result }
{
    match entry_at(list, number) {
        Some(file) => file.name.copy(),
        None => unreachable!(),
    }
}

/// Gives a file its new surface, from this epoch on. There is none for a file that is gone.
fn refile(file: &mut Option<FileEntry>, rewrite: Rewrite, epoch: u32)
    ensures { file.new ≡ option_map (entry_rewritten epoch rewrite) file.old }
{
    if let Some(file) = file {
        file.surface = rewrite.new;
        file.generation = epoch;
    }
}

impl Files {
    /// No files.
    pub fn new(alloc: Global) -> Self
        ensures { result.files ≡ [] }
    {
        Files {
            list: Vec::new(alloc),
            numbers: IndexMap::new(alloc),
            by_node: Vec::new(alloc),
        }
    }

    /// How many numbers were given out, with those of files that are gone.
    pub fn count(&self) -> u32
        ensures { result ≡ length self.now.files }
    {
        self.list.len() as u32
    }

    /// The file of this number, where it is there.
    pub fn get(&self, file: u32) -> Option<&FileEntry>
        ensures { option_map (λ f. plain_file f.now) result ≡ living_at self.now.files file }
    {
        entry_at(&self.list, file)
    }

    /// The number of the file of this name.
    pub fn number_of(&self, name: &Name) -> Option<u32>
        ensures number { IsNumber (filed_names self.now.files) name.now result }
        ensures there { IfSome result (λ file. is_some (living_at self.now.files file) ≡ true) }
    {
        // A name isn't empty, so no file that is gone is found by it.
        let _bytes = name.as_bytes();
        self.numbers.get(name).copied()
    }

    /// The numbers of the files with this base node, ascending. No other file is looked at, but for
    /// a few on the way to the first and to the last.
    pub fn of_node(&self, node: u32) -> &[u32]
        ensures { AreOfNode self.now.files node result.now }
    {
        files_of_node(&self.list, &self.by_node, node)
    }

    /// Makes room for one more file.
    pub fn reserve(&mut self) -> Result<(), Memory>
        ensures files { self.new.files ≡ self.old.files }
        ensures room { OnOk result (1 ≤ self.new.spare) }
    {
        self.list.reserve(1)?;
        self.numbers.reserve(1)?;
        self.by_node.reserve(1)?;
        Ok(())
    }

    /// Appends a file, for which there is room. It takes no memory.
    pub fn push(&mut self, file: FileEntry)
        requires fresh { is_among file.name (filed_names self.old.files) ≡ false }
        requires few { length self.old.files < MAX_FILES }
        requires room { 1 ≤ self.old.spare }
        ensures { self.new.files ≡ self.old.files ++ Some (plain_file file) ∷ [] }
    {
        let number = self.list.len() as u32;
        // The number is the greatest, so it goes behind all others of its base node.
        let place = count_below(&self.list, &self.by_node, u64::from(file.node) + 1);
        let _ = self.by_node.insert(place, number);
        let _ = self.numbers.insert(file.name.copy(), number);
        let _ = self.list.push(Some(file));
    }

    /// Takes a file away. Its number isn't given to another. It takes no memory.
    pub fn remove(&mut self, file: u32)
        requires { is_some (living_at self.old.files file) ≡ true }
        ensures files { self.new.files ≡ change_at gone file self.old.files }
        ensures fresh { (name : List ℕ) → IsName name → HasName self.old.files file name
            → is_among name (filed_names self.new.files) ≡ false }
        ensures room { self.old.spare ≤ self.new.spare }
    {
        // A map has each name once, as its length says: so the name leads to no other file.
        let _count = self.numbers.len();
        let name = name_at(&self.list, file);
        let _ = self.numbers.shift_remove(&name);
        take_out(&mut self.by_node, file);
        self.list[file as usize] = None;
    }

    /// Takes a file away and appends another of its name, for which there is room. It takes no
    /// memory.
    pub fn replace(&mut self, file: u32, new: FileEntry)
        requires there { is_some (living_at self.old.files file) ≡ true }
        requires named { HasName self.old.files file new.name }
        requires few { length (change_at gone file self.old.files ++ Some (plain_file new) ∷ [])
            ≤ MAX_FILES }
        requires room { 1 ≤ self.old.spare }
        ensures { self.new.files
            ≡ change_at gone file self.old.files ++ Some (plain_file new) ∷ [] }
    {
        // A name isn't empty, so that no file has it when the old one is gone.
        let _bytes = new.name.as_bytes();
        self.remove(file);
        self.push(new);
    }

    /// Gives a file its new surface, from this epoch on.
    pub fn rewrite(&mut self, rewrite: Rewrite, epoch: u32)
        requires { rewrite.file < length self.old.files }
        ensures { let one = option_map (rewritten epoch rewrite) in
            self.new.files ≡ change_at one rewrite.file self.old.files }
    {
        refile(&mut self.list[rewrite.file as usize], rewrite, epoch);
    }
}
