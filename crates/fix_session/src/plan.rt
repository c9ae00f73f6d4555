//! What a session is opened with, and what its machine and its judge take of it. `session` asks this.
ghost use Rattle.std.specs.Prelude.{◌≡◌, IfOk};
ghost use Rattle.fix_session.specs.Judged.{rules_seen};
ghost use Rattle.fix_session.specs.Plan.{options_of, rules_of};

use crate::Rules;
use fix_base::{Bytes, Identity, OutOfMemory};
use fix_dict::Dictionary;
use fix_machine::{Options, Role};
use fix_outside::LoadFault;
use fix_schedule::Schedule;
use fix_settings::SessionSettings;
use std::alloc::Global;

/// What a session is opened with.
#[derive(Drop)]
pub struct SessionPlan {
    /// Who the session is between. Both CompIDs must be ones: 1 to 64 bytes from 0x20 to 0x7E.
    pub identity: Identity,
    /// Who opens its connections.
    pub role: Role,
    /// What its decisions are by: HeartBtInt, timeouts, latency, how gaps are asked for, resets.
    pub settings: SessionSettings,
    /// When it may be connected.
    pub schedule: Schedule,
    /// The dictionary that messages are validated by, where there is one.
    pub dict: Option<Dictionary>,
}

/// A plan that no session was opened with, and why.
#[derive(Drop)]
pub struct SessionRefused {
    pub plan: SessionPlan,
    pub fault: LoadFault,
}

/// What the settings say to the decisions of a session.
pub fn options_from(
    alloc: Global,
    identity: &Identity,
    settings: &SessionSettings,
) -> Result<Options, OutOfMemory>
    ensures { IfOk result (λ options. options ≡ options_of identity.now settings.now) }
{
    let mut latency = None;
    if settings.check_latency {
        latency = Some(settings.max_latency);
    }
    Ok(Options {
        identity: Identity {
            begin: identity.begin,
            sender: Bytes::copy(alloc, identity.sender.as_slice())?,
            target: Bytes::copy(alloc, identity.target.as_slice())?,
        },
        heart: settings.heart_bt_int,
        chunk: settings.resend_request_chunk_size,
        latency,
        logon_timeout: settings.logon_timeout,
        logout_timeout: settings.logout_timeout,
        persist: settings.persist_messages,
        reset_on_logon: settings.reset_on_logon,
        version: None,
    })
}

/// By which rules messages are judged: by the dictionary where invalid messages are rejected.
pub fn rules_from<'a>(settings: &SessionSettings, dict: &'a Option<Dictionary>) -> Rules<'a>
    ensures { rules_seen result ≡ rules_of settings.now dict.now }
{
    let order = settings.validate_fields_out_of_order;
    if !settings.reject_invalid_message {
        return Rules { dict: None, order };
    }
    match dict {
        None => Rules { dict: None, order },
        Some(dict) => Rules {
            dict: Some(dict),
            order,
        },
    }
}
