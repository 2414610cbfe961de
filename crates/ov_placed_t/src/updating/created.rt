//! A file that is created in a new store.
ghost use Rattle.std.specs.Prelude.{◌≡◌, ◌<◌, ◌^◌, [], false, length};
ghost use Rattle.ov_disk.specs.Disk.{Only, Told};
ghost use Rattle.ov_journal.specs.Log.{Stands};
ghost use Rattle.ov_journal.specs.Standing.{IsUnborn};

use super::master;
use ov_base::{Mode, Name, UserSet};
use ov_blocks::Extents;
use ov_disk::{Disk, MemDisk};
use ov_journal::{CheckFault, Header, Journal};
use ov_moves::Move;
use ov_recoat::Recoat;
use ov_record::Brief;
use ov_state::Rewrite;
use ov_surface::over_encrypt;
use ov_tokens::{Layer, Surface, Tokens};
use ov_updating::{spell_update, update};
use std::alloc::Global;
use std::test::Fail;

const TEXT: [u8; 3] = [1, 2, 3];

// The file gets the surface of its list.
const REWRITES: [Rewrite; 1] = [Rewrite {
    file: 0,
    length: 3,
    old: None,
    new: Some(0),
}];

const HEADER: Header = Header {
    format: 2,
    mode: Mode::Full,
    first: 0,
    base_check: [0x11; 32],
    surface_check: [0x22; 32],
};

// Creates the first file of a store with one user, who is its list.
fn create<D: Disk>(
    alloc: Global,
    name: Name,
    extents: &mut Extents,
    journal: &mut Journal,
    disk: &mut D,
) -> Result<Vec<Move>, CheckFault>
    requires none { extents.old ≡ [] }
    requires whole { journal.old.bad ≡ false }
    requires count { length journal.old.offsets < 2 ^ 40 }
    requires stands { Stands D.tells journal.old disk.old }
    requires settled { Told (D.tells.reads disk.old) (λ i. Only i (D.tells.may_leave disk.old)) }
{
    let brief = Brief::Create {
        name,
        list: UserSet::empty().with(0),
        tokens: Tokens::new(alloc),
        tag: [5; 32],
        length: 3,
    };
    let (_, front) = spell_update(alloc, brief)?;
    let master = master();
    let recoat = Recoat::new(&master, &REWRITES);
    update(
        alloc,
        extents,
        journal,
        disk,
        &recoat,
        &[],
        &front,
        &TEXT,
        None,
    )
}

#[test]
fn a_created_file_lies_under_its_coat(rt: HostRuntime) -> Result<(), Fail> {
    let mut extents = Extents::new(rt.alloc());
    let mut disk = MemDisk::new(rt.alloc());
    let mut journal = Journal::birth(rt.alloc(), &mut disk, &HEADER)?;
    let name = match Name::read(b"f") {
        Some(name) => name,
        None => return Ok(()),
    };
    let moves = create(rt.alloc(), name, &mut extents, &mut journal, &mut disk)?;
    assert!(rt; moves.len() == 1 && moves[0].to == 0);
    let mut coated = TEXT;
    over_encrypt(&Surface::key_of(&master(), 0), 0, 0, &mut coated);
    assert!(rt; disk.blobs().len() == 4_096, "{}", disk.blobs().len());
    let (bytes, behind) = disk.blobs().split_at(3);
    assert!(rt; bytes == coated.as_slice());
    assert!(rt; behind.iter().all(|byte| *byte == 0));
    Ok(())
}
