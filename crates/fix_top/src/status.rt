//! Which status a program ends with, and the name of each. `serve` takes the status from here, and `main` of
//! fixacceptor the name.
ghost use Rattle.std.specs.Prelude.{◌≡◌};
ghost use Rattle.fix_top.specs.Serve.{status_of, load_status as status_of_load};
ghost use Rattle.fix_top.specs.Names.{name_of};

use fix_base::Status;
use fix_engine::{LoadFault, RunEnd, Why};

/// The arguments name no session.
pub const WORDS: Status = Status(2);
/// Out of memory.
pub const MEMORY: Status = Status(9);

/// The status for how a run ended.
pub fn status(answer: RunEnd) -> Status
    ensures { result.0 ≡ status_of answer }
{
    match answer {
        RunEnd::Closed(Why::LoggedOut { .. }) => Status(0),
        RunEnd::Closed(Why::PeerEnd) => Status(1),
        RunEnd::Closed(Why::Refused { .. }) => Status(1),
        RunEnd::StoreFault => Status(5),
        RunEnd::LinkFault => Status(6),
        RunEnd::AppFault => Status(7),
        RunEnd::TurnsSpent => Status(8),
        RunEnd::OutOfMemory => Status(9),
        RunEnd::NotBuilt { .. } => Status(10),
        RunEnd::NumbersSpent => Status(11),
        // A session that was just opened isn't stopped before.
        RunEnd::Stopped(_) => Status(9),
    }
}

/// The status where the message store was not opened.
pub fn load_status(fault: LoadFault) -> Status
    ensures { result.0 ≡ status_of_load fault }
{
    match fault {
        LoadFault::Failed => Status(5),
        LoadFault::Damaged(_) => Status(5),
        LoadFault::OutOfMemory => Status(9),
    }
}

/// The name of a status, as a program tells it.
pub fn status_name(status: Status) -> &'static str
    ensures { result.now ≡ name_of status.0 }
{
    match status.0 {
        0 => "Done",
        1 => "Closed",
        2 => "Words",
        3 => "Settings",
        4 => "Dictionary",
        5 => "Store",
        6 => "Link",
        7 => "Application",
        8 => "Turns",
        9 => "Memory",
        10 => "NotBuilt",
        11 => "Numbers",
        12 => "Drafts",
        13 => "Threads",
        _ => "Other",
    }
}
