//! Callers over any disk, which go from call to call by the contracts alone.
ghost use Rattle.std.specs.Prelude.{◌≡◌, false, IfOk};
ghost use Rattle.ov_disk.specs.Disk.{Told};
ghost use Rattle.ov_record.specs.Briefs.{brief};
ghost use Rattle.ov_record.specs.Updates.{sealed_update};
ghost use Rattle.ov_history.specs.Sealed.{SealedHistory, with_spelled};
ghost use Rattle.ov_state.specs.Plans.{IsFitting};
ghost use Rattle.ov_images.specs.Images.{IsImageOf, keys};
ghost use Rattle.ov_store.specs.Opened.{Lasts, Serves};

use super::{BASE_CHECK, master, update_of};
use ov_base::{Key, Mode};
use ov_disk::{Disk, MemDisk};
use ov_record::Update;
use ov_state::WIDTH;
use ov_store::{Store, StoreFault};
use std::alloc::Global;

/// Two updates, one after the other, and the disk, on which the history with both lasts.
fn two_updates<D: Disk + Drop>(
    alloc: Global,
    store: Store<D>,
    one: Update<WIDTH>,
    other: Update<WIDTH>,
) -> Result<D, StoreFault>
    requires one { IsFitting (brief (sealed_update one)) }
    requires other { IsFitting (brief (sealed_update other)) }
    ensures { (g : SealedHistory) → Serves D.tells g store → IfOk result (λ disk.
        store.failed ≡ false → Lasts D.tells store.keys
        (with_spelled (with_spelled g (sealed_update one)) (sealed_update other)) disk) }
{
    let mut store = store;
    let _first = store.update(alloc, one)?;
    let _second = store.update(alloc, other)?;
    Ok(store.close())
}

/// A store is begun and makes an update. The image that was read stands for a history, and what
/// lasts is that history with the update.
fn begin_and_update<D: Disk + Drop>(
    alloc: Global,
    disk: D,
    surface: Key,
    base_check: [u8; 32],
    mode: Mode,
    update: Update<WIDTH>,
) -> Result<Store<D>, StoreFault>
    requires { IsFitting (brief (sealed_update update)) }
    ensures { Told (D.tells.reads disk) (λ i. (g : SealedHistory) → g.mode ≡ mode
        → IsImageOf (keys base_check surface.bytes) g i → IfOk result (λ s.
        Lasts D.tells (keys base_check surface.bytes) (with_spelled g (sealed_update update))
        s.disk)) }
{
    match Store::begin(alloc, disk, surface, base_check, mode) {
        Ok(store) => {
            let mut store = store;
            let _made = store.update(alloc, update)?;
            Ok(store)
        }
        Err(_) => Err(StoreFault::Disk),
    }
}

#[test]
fn callers_over_a_disk_in_memory(rt: HostRuntime) {
    let alloc = rt.alloc();
    let disk = MemDisk::new(alloc);
    let update = update_of(&rt, alloc, 0);
    let store = begin_and_update(alloc, disk, master(7), BASE_CHECK, Mode::Full, update).expect(
        &rt, "a store",
    );
    let (one, other) = (update_of(&rt, alloc, 1), update_of(&rt, alloc, 3));
    let disk = two_updates(alloc, store, one, other).expect(&rt, "two updates");
    assert_eq!(rt; disk.book().len(), 113);
}
