//! The calls of this crate, for who reads or prints settings. Each runs a stage: `reading` or `printing`.
ghost use Rattle.std.specs.Prelude.{◌≡◌, ◌<◌, ◌^◌, IfOk, IfErr, List, length};
ghost use Rattle.fix_settings.specs.declared.session_settings.SessionSettings.{SessionSettings as TheSession};
ghost use Rattle.fix_settings.specs.Printing.{settings_text};
ghost use Rattle.fix_settings.specs.Read.{IsFaultOf, AreSettingsOf};

use crate::SessionSettings;
use crate::fault::{SettingsCause, SettingsFault};
use crate::printing::put_sessions;
use crate::reading::read_text;
use fix_base::{Bytes, OutOfMemory};
use std::alloc::Global;
use std::marker::Model;

/// The settings of one or more sessions. Contracts see them as the list of the sessions.
#[derive(Debug, Drop)]
pub struct Settings {
    sessions: Vec<SessionSettings>,
}

impl Model for Settings {
    ghost use Rattle.fix_settings.specs.declared.session_settings.SessionSettings.{SessionSettings as TheSession};
    ghost use Rattle.std.specs.Prelude.{List};

    ghost Value = { List TheSession };

    ghost view = { λ s. s.sessions.items };
}

impl Settings {
    /// The settings that a text gives, or the first reason to refuse it: line by line, then the
    /// number of sessions, then session by session and key by key, then two sessions with the same
    /// BeginString, SenderCompID and TargetCompID. A session's value of a key is the last in its
    /// section, else the last in all default sections, else the table's.
    pub fn read(alloc: Global, text: &str) -> Result<Settings, SettingsFault>
        requires { length text.now < 2 ^ 32 }
        ensures ok { IfOk result (λ settings. AreSettingsOf text.now settings) }
        ensures err { IfErr result (λ fault. IsFaultOf text.now fault) }
    {
        match read_text(alloc, text.as_bytes()) {
            Ok(Ok(sessions)) => Ok(Settings { sessions }),
            Ok(Err(fault)) => Err(fault),
            Err(_) => Err(SettingsFault {
                line: 0,
                cause: SettingsCause::OutOfMemory,
            }),
        }
    }

    /// The sessions, in the order in which they were written.
    pub fn sessions(&self) -> &[SessionSettings]
        ensures { result.now ≡ self.now }
    {
        &self.sessions
    }

    /// The sessions as a settings text: for each `[SESSION]`, then a line `Key=Value` for each key
    /// that has a value, in the table's order, then a line `# ignored KEY` for each ignored key.
    pub fn print(&self, alloc: Global) -> Result<Bytes, OutOfMemory>
        ensures { IfOk result (λ text. text ≡ settings_text self.now) }
    {
        let mut out = Vec::new(alloc);
        put_sessions(&mut out, &self.sessions)?;
        Ok(Bytes::from_vec(out))
    }
}
