//! A server over its disk and its door.
ghost use Rattle.std.specs.Prelude.{◌≡◌, ◌≤◌, [], Result, false};
ghost use Rattle.ov_disk.specs.Disk.{Told};
ghost use Rattle.ov_images.specs.Images.{StandsIn, keys};
ghost use Rattle.ov_store.specs.Opened.{Opened};
ghost use Rattle.ov_store.specs.declared.begin.BeginRefused.{BeginRefused};
ghost use Rattle.ov_session.specs.Doors.{IsUnused};
ghost use Rattle.ov_report.specs.Ends.{EndsOr, IsPutTo};
ghost use Rattle.ov_report.specs.Faults.{HasValues, fault_line, fault_status};
ghost use Rattle.ov_host.specs.Hosting.{Begins, Hosts, IsOpenStatus, SaysDisk};
ghost use Rattle.ov_host.specs.Serving.{SaysDoor};

use crate::disk_server::DiskServer;
use crate::hosted::Hosted;
use crate::sharing::serve_value;
use ov_disk::Disk;
use ov_io::Sink;
use ov_report::{put_fault, values_are_known};
use ov_server::Server;
use ov_serving::Spawner;
use ov_session::{Door, Gate};
use ov_settings::Settings;
use ov_store::{BeginRefused, Store};
use std::alloc::Global;
use std::sync::Wait;
use std::thread::Threads;

// Begins the store on the disk by these settings.
fn begin_store<D: Disk + Drop>(
    alloc: Global,
    settings: &Settings,
    disk: D,
) -> Result<Store<D>, BeginRefused<D>>
    ensures { Begins D.tells (keys settings.now.base_check settings.now.surface.bytes)
        settings.now.mode disk result }
{
    Store::begin(
        alloc,
        disk,
        settings.surface,
        settings.base_check,
        settings.mode,
    )
}

// Puts the line on a store that wasn't begun, and hands its disk back.
fn hand_back<D: Disk + Drop, O: Sink>(
    alloc: Global,
    refused: BeginRefused<D>,
    out: &mut O,
) -> Hosted<D>
    ensures begun { result.begun ≡ false }
    ensures disk { result.disk ≡ refused.disk }
    ensures known { HasValues refused.fault }
    ensures ends { EndsOr (fault_line refused.fault) (fault_status refused.fault)
        (O.tells.written out.old) (O.tells.written out.new) result.status }
    ensures put { IsPutTo O.tells out.old out.new result.status }
{
    let BeginRefused { fault, disk } = refused;
    values_are_known(fault);
    Hosted {
        status: put_fault(alloc, out, fault),
        begun: false,
        disk,
    }
}

/// Begins the store on the disk by these settings, and serves it at the door: says where it
/// listens, serves the sessions, as many at once as the settings have workers, and says how many
/// there were. Where no store is begun the line says why. The disk is handed back as the sessions
/// left it.
pub fn host<
    R: Threads + Wait + Copy + Send + 'static,
    D: Disk + Drop + Send + 'static,
    A: Door,
    G: Gate + Drop + Send + Sync + 'static,
    O: Sink,
>(
    rt: &R,
    alloc: Global,
    settings: &Settings,
    disk: D,
    door: &mut A,
    spawner: &mut Spawner<A::Stream, DiskServer<D>, G>,
    gate: G,
    out: &mut O,
) -> Hosted<D>
where
    A::Stream: Send + 'static,
    requires unused { IsUnused (A.shows door.old) }
    requires workers { (1 ≤ settings.now.workers) × (settings.now.workers ≤ 65536) }
    requires spawner { spawner.old.started ≡ [] }
    ensures hosts { (begun : Result (Opened D) (BeginRefused D))
        × Begins D.tells (keys settings.now.base_check settings.now.surface.bytes)
        settings.now.mode disk begun
        × Hosts D.tells A.Stream.Source.tells A.Stream.Sink.tells
        (keys settings.now.base_check settings.now.surface.bytes) settings.now.mode disk begun
        settings.now.workers (A.shows door.old) (A.shows door.new) spawner.old spawner.new
        settings.now.sessions (O.tells.written out.old) (O.tells.written out.new) result }
    ensures disk { SaysDisk D.tells disk result }
    ensures door { SaysDoor (A.shows door.old).faults (A.shows door.new).faults result.status }
    ensures put { IsPutTo O.tells out.old out.new result.status }
    // With no fault and ample memory a server over a store of its keys and mode ends with 0.
    ensures opens { Told (D.tells.reads disk) (λ i.
        StandsIn (keys settings.now.base_check settings.now.surface.bytes) settings.now.mode i
        → IsOpenStatus result.status) }
{
    match begin_store(alloc, settings, disk) {
        Ok(store) => {
            let server = DiskServer::new(Server::new(store, settings.surface));
            let (status, server) = serve_value(
                rt,
                alloc,
                server,
                settings.workers,
                door,
                spawner,
                gate,
                settings.sessions,
                out,
            );
            let disk = server.close();
            Hosted {
                status,
                begun: true,
                disk,
            }
        }
        Err(refused) => hand_back(alloc, refused, out),
    }
}
