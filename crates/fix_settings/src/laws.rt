//! Laws about printing and reading.
ghost use Rattle.std.specs.Prelude.{ℕ, List};
ghost use Rattle.fix_settings.specs.declared.session_settings.SessionSettings.{SessionSettings as TheSession};
ghost use Rattle.fix_settings.specs.Read.{AreSettingsOf};
ghost use Rattle.fix_settings.specs.Again.{ArePrintable, ReadsBack};

/// The text that `Settings::print` gives is UTF-8 and isn't refused, and what `Settings::read` gives
/// of it are the same sessions without the ignored keys.
pub fn what_is_printed_is_read_again()
    ensures { (sessions : List TheSession) → ArePrintable sessions → ReadsBack sessions }
{}

/// The same of all sessions that `Settings::read` gives, whatever the text.
pub fn what_is_read_prints_and_reads_again()
    ensures { (text : List ℕ) (sessions : List TheSession) → AreSettingsOf text sessions → ReadsBack sessions }
{}
