//! What holds of the texts of times, each law on a function that does nothing.
ghost use Rattle.std.specs.Prelude.{◌≡◌, ℕ, List, ℤ, pos};
ghost use Rattle.fix_base.specs.Frame.{HasNoSoh};
ghost use Rattle.fix_base.specs.Times.{cut_to, IsPrecision, IsTimeText, IsTimeTextOf, IsUtcTimestamp};

/// What was written is read as the time, cut to the digits that were written.
pub fn a_written_time_is_read()
    ensures { (digits time : ℕ) (text : List ℕ) → IsPrecision digits → IsTimeTextOf digits time text
        → IsUtcTimestamp text (pos (cut_to digits time)) }
{}

/// A UTCTimestamp says one time.
pub fn a_timestamp_says_one_time()
    ensures { (text : List ℕ) (time other : ℤ) → IsUtcTimestamp text time → IsUtcTimestamp text other → time ≡ other }
{}

/// The text of a time is the value of a field: it has no SOH.
pub fn a_written_time_is_a_value()
    ensures { (time : ℕ) (text : List ℕ) → IsTimeText time text → HasNoSoh text }
{}
