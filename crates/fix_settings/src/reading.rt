//! Reads a settings text: its lines first, then session by session.
ghost use Rattle.std.specs.Prelude.{◌≡◌, ◌<◌, ◌^◌, List, IfOk, length, map};
ghost use Rattle.fix_settings.specs.declared.key.TheConstants.{KEYS as THE_KEYS};
ghost use Rattle.fix_settings.specs.Lines.{Pair, last_of, defaults_of, sections_of as the_sections};
ghost use Rattle.fix_settings.specs.Lent.{pairs_read, lines_read, names_read, section_read};
ghost use Rattle.fix_settings.specs.Reading.{ignored_of, AreInOrder};
ghost use Rattle.fix_settings.specs.Table.{name_of};
ghost use Rattle.fix_settings.specs.Read.{DefaultsAre, IsRead, AreRead, IsReadOf};

use crate::SessionSettings;
use crate::fault::{SettingsCause, SettingsFault};
use crate::ignoring::{add_defaults, add_run, copies, in_order};
use crate::judging::{EndpointsRef, endpoints_of, keys_fault, line_fault, same_fault};
use crate::line::{LineRef, PairRef, lines_of};
use crate::making::settings_from;
use crate::section::{SectionRef, default_pairs, sections_of, session_pairs};
use std::alloc::{AllocError, Global};

const MOST_SESSIONS: usize = 256;

/// A session that was read, or why it is refused.
#[derive(Drop)]
pub enum OneRead<'a> {
    Session(SessionSettings, EndpointsRef<'a>),
    Refused(SettingsFault),
}

/// Reads a text.
pub fn read_text(
    alloc: Global,
    text: &[u8],
) -> Result<Result<Vec<SessionSettings>, SettingsFault>, AllocError>
    requires { length text.now < 2 ^ 32 }
    ensures { IfOk result (λ read. IsReadOf text.now read) }
{
    let lines = lines_of(alloc, text)?;
    if let Some(fault) = line_fault(&lines) {
        return Ok(Err(fault));
    }
    let sections = sections_of(alloc, &lines)?;
    if sections.is_empty() || sections.len() > MOST_SESSIONS {
        return Ok(Err(SettingsFault {
            line: 0,
            cause: SettingsCause::NoSection,
        }));
    }
    let defaults = default_pairs(alloc, &lines)?;
    let mut ignored = Vec::new(alloc);
    add_defaults(&mut ignored, &lines)?;
    let ignored = in_order(alloc, ignored)?;
    read_sections(alloc, &lines, &sections, &defaults, &ignored)
}

// Reads one section. `defaults` has the last default pair for each key, and `ignored` the default
// sections' keys that mean nothing, in order and each once, of these lines.
fn read_section<'a>(
    alloc: Global,
    lines: &[LineRef<'a>],
    section: &SectionRef<'a>,
    defaults: &[Option<PairRef<'a>>],
    ignored: &[&'a [u8]],
) -> Result<OneRead<'a>, AllocError>
    requires long { length defaults.now ≡ 30 }
    requires pairs { DefaultsAre lines.now defaults.now }
    requires names { AreInOrder (ignored_of (defaults_of (lines_read lines.now))) (names_read ignored.now) }
    ensures { IfOk result (λ read. IsRead (defaults_of (lines_read lines.now)) (section_read section.now) read) }
{
    let pairs = session_pairs(alloc, section.behind, defaults)?;
    if let Some(fault) = keys_fault(section.line, &pairs) {
        return Ok(OneRead::Refused(fault));
    }
    let endpoints = endpoints_of(section.line, &pairs);
    let mut names = Vec::from_slice(alloc, ignored)?;
    add_run(&mut names, section.behind)?;
    let names = in_order(alloc, names)?;
    let ignored = copies(alloc, &names)?;
    let settings = settings_from(alloc, &pairs, ignored)?;
    Ok(OneRead::Session(settings, endpoints))
}

// Reads the sections, in order.
fn read_sections<'a>(
    alloc: Global,
    lines: &[LineRef<'a>],
    sections: &[SectionRef<'a>],
    defaults: &[Option<PairRef<'a>>],
    ignored: &[&'a [u8]],
) -> Result<Result<Vec<SessionSettings>, SettingsFault>, AllocError>
    requires long { length defaults.now ≡ 30 }
    requires pairs { DefaultsAre lines.now defaults.now }
    requires names { AreInOrder (ignored_of (defaults_of (lines_read lines.now))) (names_read ignored.now) }
    ensures { IfOk result (λ read. AreRead (defaults_of (lines_read lines.now)) (map section_read sections.now) read) }
{
    let mut sessions = Vec::new(alloc);
    let mut endpoint_list = Vec::new(alloc);
    for section in sections {
        match read_section(alloc, lines, section, defaults, ignored)? {
            OneRead::Refused(fault) => return Ok(Err(fault)),
            OneRead::Session(settings, endpoints) => {
                sessions.push(settings)?;
                endpoint_list.push(endpoints)?;
            }
        }
    }
    match same_fault(&endpoint_list) {
        Some(fault) => Ok(Err(fault)),
        None => Ok(Ok(sessions)),
    }
}
