//! Settings as an operator writes them: read exactly, or refused with line and key; and printed
//! back, so that one sees what holds.
#![tactic(auto)]

mod fault;
mod form;
mod ignoring;
mod judging;
mod key;
mod laws;
mod line;
mod making;
mod printing;
mod reading;
mod section;
mod session_settings;
mod settings;
mod table;
#[cfg(test)]
mod tests;
#[cfg(test)]
mod value_tests;

pub use fault::{SettingsCause, SettingsFault};
pub use key::{KEYS, Key};
pub use laws::{what_is_printed_is_read_again, what_is_read_prints_and_reads_again};
pub use session_settings::SessionSettings;
pub use settings::Settings;
