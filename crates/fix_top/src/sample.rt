//! A sample session: its parts in memory, and the call that serves it through `serve_stdio`.
ghost use Rattle.std.specs.Prelude.{◌≡◌, [], ◌∷◌, Some, IfOk};
ghost use Rattle.fix_base.specs.Says.{joined};
ghost use Rattle.fix_disk.specs.MemoryDisk.{disk_of};
ghost use Rattle.fix_disk.specs.MemorySink.{sink_of};
ghost use Rattle.fix_parts.specs.Memory.{link_of, readings_of};
ghost use Rattle.fix_rim.specs.OptionalLink.{link_seen};
ghost use Rattle.fix_rim.specs.Rim.{disk_seen, link_in, app_in, clock_in};
ghost use Rattle.fix_top.specs.Sample.{SAMPLE, SAMPLE_TIME, ROOM as SAMPLE_ROOM, STORE_ROOM as SAMPLE_STORE};
ghost use Rattle.fix_top.specs.Sample.{WritesSample};

use crate::serve::serve_stdio;
use fix_base::{Bytes, OutOfMemory, Status};
use fix_disk::{MemoryDisk, MemorySink};
use fix_parts::{KeptTape, LineApp, MemoryClock, MemoryLink};
use fix_rim::Rim;
use std::alloc::Global;

/// So many bytes that are written are kept, and so many of lines.
const ROOM: usize = 1000;
/// So many bytes of the message store's file are kept.
const STORE: usize = 1000;
/// 2024-01-02 10:00:00, in microseconds since 1970.
const TIME: u64 = 1_704_189_600_000_000;

/// The parts in memory over which the sample is served.
pub type InMemory = Rim<MemoryDisk, MemoryLink, LineApp<MemorySink>, MemoryClock, KeptTape>;

/// What came of serving the sample.
#[derive(Drop)]
pub struct Sampled {
    pub status: Status,
    /// The parts, with what was written and handed over.
    pub outside: InMemory,
}

/// Serves the sample session over parts in memory: a counterparty `BUY` sends a Logon, an order and
/// a Logout of FIX.4.2 to this end, `SELL`, at 2024-01-02 10:00:00, cut into these pieces.
///
/// Nothing is assumed of the parts. The status is 0, the Logon and the Logout were answered on the
/// connection, and the line of the order was handed over; or the status is 9, which says out of
/// memory. Making the parts may be out of memory too.
pub fn serve_sample(alloc: Global, pieces: Vec<Bytes>) -> Result<Sampled, OutOfMemory>
    requires { joined pieces.items ≡ SAMPLE }
    ensures { IfOk result
        (λ made. WritesSample made.status.0 (link_seen link_of (link_in made.outside)).written
        (sink_of (app_in made.outside)).written) }
{
    let mut outside = outside(alloc, pieces)?;
    let words = ["--stdio", "FIX.4.2", "SELL", "BUY"];
    let status = serve_stdio(alloc, words.as_slice(), &mut outside, u64::MAX);
    Ok(Sampled { status, outside })
}

// The parts in memory, of which none fails before its room is spent, over an empty disk.
fn outside(alloc: Global, pieces: Vec<Bytes>) -> Result<InMemory, OutOfMemory>
    ensures link { IfOk result
        (λ made. link_seen link_of (link_in made)
        ≡ record { to_come = Some pieces.items; written = Some []; room = Some SAMPLE_ROOM; faults = 0 }) }
    ensures sink { IfOk result
        (λ made. sink_of (app_in made) ≡ record { written = Some []; room = Some SAMPLE_ROOM; faults = 0 }) }
    ensures clock { IfOk result (λ made. readings_of (clock_in made) ≡ SAMPLE_TIME ∷ []) }
    ensures file { IfOk result (λ made. (disk_seen disk_of made).bytes ≡ Some []) }
    ensures disk { IfOk result (λ made. (disk_seen disk_of made).room ≡ Some SAMPLE_STORE) }
{
    let disk = MemoryDisk::new(alloc, STORE, 0, Vec::new(alloc), None)?;
    let link = MemoryLink::new(alloc, pieces, ROOM, Vec::new(alloc))?;
    let sink = MemorySink::new(alloc, ROOM, Vec::new(alloc))?;
    Ok(Rim::new(
        alloc,
        disk,
        Some(link),
        LineApp::new(alloc, sink),
        MemoryClock::new(Vec::from_slice(alloc, &[TIME])?),
        KeptTape::new(alloc),
    ))
}
