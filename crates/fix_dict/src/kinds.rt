//! The names of the kinds of values in a dictionary's file. `field` calls this for the type of each field.
ghost use Rattle.std.specs.Prelude.{◌≡◌};
ghost use Rattle.fix_dict.specs.KindNames.{kind_named, number_named, time_named, text_named};

use fix_fields::ValueKind;

/// The kind of this name.
pub fn kind_named(name: &[u8]) -> Option<ValueKind>
    ensures { result ≡ kind_named name.now }
{
    if let Some(kind) = number_named(name) {
        return Some(kind);
    }
    if let Some(kind) = time_named(name) {
        return Some(kind);
    }
    text_named(name)
}

// A kind whose values are numbers.
fn number_named(name: &[u8]) -> Option<ValueKind>
    ensures { result ≡ number_named name.now }
{
    if name == b"INT".as_slice() {
        return Some(ValueKind::Int);
    }
    if name == b"LENGTH".as_slice() {
        return Some(ValueKind::Length);
    }
    if name == b"NUMINGROUP".as_slice() {
        return Some(ValueKind::NumInGroup);
    }
    if name == b"SEQNUM".as_slice() {
        return Some(ValueKind::SeqNum);
    }
    if name == b"PRICE".as_slice() {
        return Some(ValueKind::Price);
    }
    if name == b"QTY".as_slice() {
        return Some(ValueKind::Qty);
    }
    if name == b"AMT".as_slice() {
        return Some(ValueKind::Amt);
    }
    if name == b"PRICEOFFSET".as_slice() {
        return Some(ValueKind::PriceOffset);
    }
    if name == b"PERCENTAGE".as_slice() {
        return Some(ValueKind::Percentage);
    }
    if name == b"FLOAT".as_slice() {
        return Some(ValueKind::Float);
    }
    None
}

// A kind whose values are dates or times.
fn time_named(name: &[u8]) -> Option<ValueKind>
    ensures { result ≡ time_named name.now }
{
    if name == b"UTCTIMESTAMP".as_slice() {
        return Some(ValueKind::UtcTimestamp);
    }
    if name == b"LOCALMKTDATE".as_slice() {
        return Some(ValueKind::LocalMktDate);
    }
    if name == b"MONTHYEAR".as_slice() {
        return Some(ValueKind::MonthYear);
    }
    if name == b"UTCTIMEONLY".as_slice() {
        return Some(ValueKind::UtcTimeOnly);
    }
    if name == b"UTCDATEONLY".as_slice() {
        return Some(ValueKind::UtcDateOnly);
    }
    if name == b"DAYOFMONTH".as_slice() {
        return Some(ValueKind::DayOfMonth);
    }
    None
}

// A kind whose values are bytes or texts.
fn text_named(name: &[u8]) -> Option<ValueKind>
    ensures { result ≡ text_named name.now }
{
    if name == b"CHAR".as_slice() {
        return Some(ValueKind::Char);
    }
    if name == b"BOOLEAN".as_slice() {
        return Some(ValueKind::Boolean);
    }
    if name == b"STRING".as_slice() {
        return Some(ValueKind::String);
    }
    if name == b"CURRENCY".as_slice() {
        return Some(ValueKind::Currency);
    }
    if name == b"EXCHANGE".as_slice() {
        return Some(ValueKind::Exchange);
    }
    if name == b"COUNTRY".as_slice() {
        return Some(ValueKind::Country);
    }
    if name == b"DATA".as_slice() {
        return Some(ValueKind::Data);
    }
    if name == b"MULTIPLEVALUESTRING".as_slice() {
        return Some(ValueKind::MultipleValueString);
    }
    None
}
