//! A session between two messages. `answering` takes it from one to the next.
use fix_machine::Machine;
use fix_resend::Stash;
use fix_stage::Sender;

/// A session between two messages: what its machine knows, what it sends, and the frames that wait.
#[derive(Drop)]
pub struct State {
    pub machine: Machine,
    pub sender: Sender,
    /// The frames that came before the numbers that go before theirs.
    pub waiting: Stash,
    /// A reset by Logon was asked for and isn't answered, as the message store has it.
    pub asked: bool,
    /// The Logon of this session goes out in the next turn, before anything is read.
    pub logon_due: bool,
}
