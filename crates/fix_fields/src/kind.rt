//! The data types of FIX 4.4, and whether a value is one of them. `fix_dict` names the type of each field,
//! and `fix_validate` checks its values by this.
ghost use Rattle.std.specs.Prelude.{◌≡◌, ◌≢◌, ◌↔◌, ℕ, [], IsTrue};
ghost use Rattle.fix_fields.specs.Value.{IsCount, IsChar};
ghost use Rattle.fix_fields.specs.Kinds.{IsValueOf};

use crate::dates::{is_date, is_day_of_month, is_time_of_day};
use crate::number::digits_of;
use crate::{boolean, int, month_year, price_text, utc_time};
use fix_base::SOH;

/// The most digits of a count.
const MOST_COUNT_DIGITS: usize = 9;

/// What the values of a field are: the data types of FIX 4.4.
#[derive(Clone, Copy, Debug, PartialEq, Eq)]
pub enum ValueKind {
    /// `int`: digits, before which a minus may stand, at most 15 after leading zeros.
    Int,
    /// `Length`: one to nine digits, as the two below.
    Length,
    NumInGroup,
    SeqNum,
    /// `Price`: digits with at most one point, before which a minus may stand, at most 15 after
    /// leading zeros, as the five below.
    Price,
    Qty,
    Amt,
    PriceOffset,
    Percentage,
    Float,
    /// `char`: one byte, which is no SOH.
    Char,
    /// `Boolean`: `Y` or `N`.
    Boolean,
    /// `UTCTimestamp`: `YYYYMMDD-HH:MM:SS`, with no fraction or one of three, six or nine digits.
    UtcTimestamp,
    /// `UTCTimeOnly`: `HH:MM:SS`, with no fraction or one of three, six or nine digits.
    UtcTimeOnly,
    /// `UTCDateOnly`: `YYYYMMDD` of a day that exists, as the one below.
    UtcDateOnly,
    LocalMktDate,
    /// `month-year`: `YYYYMM`, `YYYYMMDD` of a day that exists, or `YYYYMM` and `w1` to `w5`.
    MonthYear,
    /// `day-of-month`: 1 to 31 in one or two digits.
    DayOfMonth,
    /// `String`: any value that isn't empty, as the five below.
    String,
    Currency,
    Exchange,
    Country,
    Data,
    MultipleValueString,
}

/// Whether the value is one of the kind (FIX 4.4, "Data Types").
pub fn is_kind(kind: ValueKind, value: &[u8]) -> bool
    ensures { IsTrue result ↔ IsValueOf kind value.now }
{
    match kind {
        ValueKind::Int => int(value).is_some(),
        ValueKind::Length | ValueKind::NumInGroup | ValueKind::SeqNum => is_count(value),
        ValueKind::Price
        | ValueKind::Qty
        | ValueKind::Amt
        | ValueKind::PriceOffset
        | ValueKind::Percentage
        | ValueKind::Float => price_text(value),
        ValueKind::Char => is_char(value),
        ValueKind::Boolean => boolean(value).is_some(),
        ValueKind::UtcTimestamp => utc_time(value).is_some(),
        ValueKind::UtcTimeOnly => is_time_of_day(value),
        ValueKind::UtcDateOnly | ValueKind::LocalMktDate => is_date(value),
        ValueKind::MonthYear => month_year(value),
        ValueKind::DayOfMonth => is_day_of_month(value),
        ValueKind::String
        | ValueKind::Currency
        | ValueKind::Exchange
        | ValueKind::Country
        | ValueKind::Data
        | ValueKind::MultipleValueString => !value.is_empty(),
    }
}

// One to nine digits.
fn is_count(value: &[u8]) -> bool
    ensures { IsTrue result ↔ IsCount value.now }
{
    if value.len() > MOST_COUNT_DIGITS {
        return false;
    }
    digits_of(value).is_some()
}

// One byte, which is no SOH.
fn is_char(value: &[u8]) -> bool
    ensures { IsTrue result ↔ IsChar value.now }
{
    match value {
        [byte] => *byte != SOH,
        _ => false,
    }
}
