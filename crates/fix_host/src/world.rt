//! The traits of what is outside a host: where connections, disks, clocks, texts and threads come from. A host
//! has its parts made here, and those whose faults are counted come back here.
ghost use Rattle.std.specs.Prelude.{◌≡◌, ℕ, IfOk, IfErr};
ghost use Rattle.fix_base.specs.Trace.{Rises};
ghost use Rattle.fix_host.specs.Made.{failures_with};
ghost use Rattle.fix_host.specs.World.{WorldSeen, Makes, Opens, Retires, RetiresDisk, new_world, of_store, of_link};
ghost use Rattle.fix_host.specs.World.{of_app, of_threads, of_files};
ghost use Rattle.fix_host.specs.Damaged.{IsDamage};

use crate::{Gate, Spawner};
use fix_base::OutOfMemory;
use fix_disk::{Disk, Sink, Source};
use fix_parts::{Clock, Link};
use std::alloc::Global;

/// Why a part couldn't be made.
#[derive(Clone, Copy, Debug, PartialEq, Eq)]
pub enum MakeFault {
    /// The world outside refused it.
    Failed,
    OutOfMemory,
}

/// What takes connections at a host and a port.
pub trait Ear {
    /// A connection.
    type Link;

    /// How often it failed.
    ghost ear_faults: { Self → ℕ };

    /// The next connection. It may wait for one.
    fn accept(&mut self, alloc: Global) -> Result<Self::Link, MakeFault>
        ensures faults { Rises (failures_with result) (ear_faults self.old) (ear_faults self.new) };
}

/// What a host needs of the world outside. It makes the parts, and counts what failed: its own failures at once,
/// those of a part when the part is given back to it.
pub trait World: Sized + Send + Drop + 'static {
    type Link: Link + Send + Drop + 'static;

    type Disk: Disk + Send + Drop + 'static;

    type Clock: Clock + Send + Drop + 'static;

    type Ear: Ear<Link = Self::Link> + Send + Drop + 'static;

    type Files: Source + Send + Drop + 'static;

    type Out: Sink + Send + Drop + 'static;

    type Spawner: Spawner + Send + Drop + 'static;

    type Gate: Gate + Send + Drop + 'static;

    /// How often each kind of part failed, how often it listened or dialled, how many disks came back, and
    /// the bytes of the last of these, where they are told.
    ghost world: { Self → WorldSeen };

    /// What takes connections at this host and port. Failed only where the count of links rose.
    fn listen(&mut self, alloc: Global, host: &str, port: u16) -> Result<Self::Ear, MakeFault>
        ensures moves { Opens result (world self.old) (world self.new) }
        ensures new { IfOk result (λ ear. Self.Ear.Ear.ear_faults ear ≡ 0) };

    /// A connection to this host and port. Failed only where the count of links rose.
    fn dial(&mut self, alloc: Global, host: &str, port: u16) -> Result<Self::Link, MakeFault>
        ensures moves { Opens result (world self.old) (world self.new) }
        ensures new { IfOk result (λ link. (Self.Link.Link.link link).faults ≡ 0) };

    /// The disk of this name, or one in memory where there is none. Failed only where the count of the store rose.
    fn disk(&mut self, alloc: Global, name: Option<&str>) -> Result<Self::Disk, MakeFault>
        ensures moves { Makes of_store result (world self.old) (world self.new) }
        ensures new { IfOk result (λ disk. (Self.Disk.Disk.disk disk).faults ≡ 0) };

    /// A clock.
    fn clock(&mut self, alloc: Global) -> Result<Self::Clock, MakeFault>
        ensures moves { world self.new ≡ world self.old }
        ensures err { IfErr result (λ fault. fault ≡ MakeFault.OutOfMemory) };

    /// Where settings and other texts come from.
    fn files(&mut self, alloc: Global) -> Result<Self::Files, MakeFault>
        ensures moves { world self.new ≡ world self.old }
        ensures err { IfErr result (λ fault. fault ≡ MakeFault.OutOfMemory) }
        ensures new { IfOk result (λ files. (Self.Files.Source.source files).faults ≡ 0) };

    /// Where lines go.
    fn out(&mut self, alloc: Global) -> Result<Self::Out, MakeFault>
        ensures moves { world self.new ≡ world self.old }
        ensures err { IfErr result (λ fault. fault ≡ MakeFault.OutOfMemory) }
        ensures new { IfOk result (λ out. (Self.Out.Sink.sink out).faults ≡ 0) };

    /// What starts threads.
    fn spawner(&mut self, alloc: Global) -> Result<Self::Spawner, MakeFault>
        ensures moves { world self.new ≡ world self.old }
        ensures err { IfErr result (λ fault. fault ≡ MakeFault.OutOfMemory) }
        ensures new { IfOk result (λ spawner. Self.Spawner.Spawner.faults spawner ≡ 0) };

    /// What holds senders up.
    fn gate(&mut self, alloc: Global) -> Result<Self::Gate, MakeFault>
        ensures moves { world self.new ≡ world self.old }
        ensures err { IfErr result (λ fault. fault ≡ MakeFault.OutOfMemory) };

    /// A world for another thread, which has counted nothing.
    fn fork(&mut self, alloc: Global) -> Result<Self, OutOfMemory>
        ensures moves { world self.new ≡ world self.old }
        ensures new { IfOk result (λ made. world made ≡ new_world) };

    /// Lets a disk go. That it failed counts as a fault of the store, and so does a place at which its file is
    /// damaged.
    fn retire_disk(&mut self, disk: Self::Disk, damaged: Option<u64>)
        requires { IsDamage damaged (Self.Disk.Disk.disk disk).bytes }
        ensures moves { RetiresDisk (Self.Disk.Disk.disk disk).faults (Self.Disk.Disk.disk disk).bytes damaged
            (world self.old) (world self.new) };

    /// Lets a connection go. That it failed counts as a fault of the links.
    fn retire_link(&mut self, link: Self::Link)
        ensures moves { Retires of_link (Self.Link.Link.link link).faults (world self.old) (world self.new) };

    /// Lets an ear go. That it failed counts as a fault of the links.
    fn retire_ear(&mut self, ear: Self::Ear)
        ensures moves { Retires of_link (Self.Ear.Ear.ear_faults ear) (world self.old) (world self.new) };

    /// Lets a source go. That it failed counts as a fault of the files.
    fn retire_files(&mut self, files: Self::Files)
        ensures moves { Retires of_files (Self.Files.Source.source files).faults (world self.old) (world self.new) };

    /// Lets a sink of lines go. That it failed counts as a fault of the application.
    fn retire_out(&mut self, out: Self::Out)
        ensures moves { Retires of_app (Self.Out.Sink.sink out).faults (world self.old) (world self.new) };

    /// Lets a spawner go. That it failed counts as a fault of the threads.
    fn retire_spawner(&mut self, spawner: Self::Spawner)
        ensures moves { Retires of_threads (Self.Spawner.Spawner.faults spawner) (world self.old) (world self.new) };
}
