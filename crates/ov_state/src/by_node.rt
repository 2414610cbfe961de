//! The numbers of the files that are there, ordered by base node and then by number.
ghost use Rattle.std.specs.Prelude.{◌≡◌, ◌==◌, ◌≤◌, ◌-◌, option_map, position, Contains};
ghost use Rattle.std.specs.Prelude.{vec_capacity, vec_len};
ghost use Rattle.ov_history.specs.Places.{living_at};
ghost use Rattle.ov_state.specs.Entries.{node_at, plain_file, plain_files};
ghost use Rattle.ov_state.specs.Entries.{Ascend, AreByNode, AreOfNode, IsCountBelow, IsOnly};
ghost use Rattle.ov_state.specs.Entries.{IsTakenOut};

use crate::files::FileEntry;
use std::slice;

/// The file of this number, where it is there.
pub(crate) fn entry_at(list: &[Option<FileEntry>], number: u32) -> Option<&FileEntry>
    ensures { option_map (λ f. plain_file f.now) result ≡ living_at (plain_files list.now) number }
{
    match list.get(number as usize) {
        Some(entry) => entry.as_ref(),
        None => None,
    }
}

/// The base node of the file of this number, and 0 where it isn't there.
fn node_at(list: &[Option<FileEntry>], number: u32) -> u32
    ensures { result ≡ node_at (plain_files list.now) number }
{
    match entry_at(list, number) {
        Some(file) => file.node,
        None => 0,
    }
}

/// How many of the numbers are of files of base nodes below this one. It is found by halves.
pub(crate) fn count_below(list: &[Option<FileEntry>], numbers: &[u32], node: u64) -> usize
    requires { AreByNode (plain_files list.now) numbers.now }
    ensures { IsCountBelow (plain_files list.now) node numbers.now result }
{
    numbers.partition_point(|number| u64::from(node_at(list, *number)) < node)
}

/// The numbers of the files with this base node, which stand side by side.
pub(crate) fn files_of_node<'a>(
    list: &[Option<FileEntry>],
    numbers: &'a [u32],
    node: u32,
) -> &'a [u32]
    requires { AreByNode (plain_files list.now) numbers.now }
    ensures { AreOfNode (plain_files list.now) node result.now }
{
    let node = u64::from(node);
    let from = count_below(list, numbers, node);
    let to = count_below(list, numbers, node + 1);
    &numbers[from..to]
}

/// The place of this number among these, or None where it isn't there.
fn place_of(numbers: &[u32], number: u32) -> Option<usize>
    ensures { result ≡ position (λ other. other == number) numbers.now }
{
    numbers.iter().position(|other| *other == number)
}

/// Takes this one out of the numbers, among which it is.
pub(crate) fn take_out(numbers: &mut Vec<u32>, number: u32)
    requires { Contains numbers.old.items number }
    ensures taken { IsTakenOut number numbers.old.items numbers.new.items }
    ensures room { vec_capacity numbers.old - vec_len numbers.old
        ≤ vec_capacity numbers.new - vec_len numbers.new }
{
    match place_of(numbers.as_slice(), number) {
        Some(place) => {
            let _ = numbers.remove(place);
        }
        None => unreachable!(),
    }
}

/// This one of the ascending numbers, or none where it isn't among them. It is found by halves.
pub(crate) fn only(numbers: &[u32], number: u32) -> &[u32]
    requires { Ascend numbers.now }
    ensures { IsOnly number numbers.now result.now }
{
    match numbers.binary_search(&number) {
        Ok(place) => slice::from_ref(&numbers[place]),
        Err(_) => &[],
    }
}
