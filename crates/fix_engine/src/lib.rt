//! Carries out a session over an Outside: bytes come in as frames, each is answered, and the answer's
//! steps are done in order.
#![tactic(auto)]

mod context;
mod drafting;
mod faults;
mod handling;
mod inbound;
mod laws;
mod leaving;
mod machine;
mod outbound;
mod pending;
mod performing;
mod session;
mod state;
mod stop;
mod turn;
mod work;
mod writing;

pub use fix_outside::{
    FetchFault, Handed, KeepFault, Kind, LoadFault, Outside, ReadTurn, Said, WriteTurn,
};
pub use laws::{a_new_session_is_in_step, a_stop_is_lawful, runs_are_one_run, two_sessions_agree};
pub use session::Session;
pub use state::{Decision, Ending, Phase, Refusal, Say, State, Step, Why};
pub use stop::{BeginFault, RunEnd, SendFault, StopCause};
