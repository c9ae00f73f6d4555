//! For each data type the values that it accepts, and those that it refuses.
use crate::{ValueKind as Kind, is_kind, month_year, price_text};

fn accepts(kind: Kind, texts: &[&[u8]]) -> bool {
    texts.iter().all(|text| is_kind(kind, text))
}

fn refuses(kind: Kind, texts: &[&[u8]]) -> bool {
    texts.iter().all(|text| !is_kind(kind, text))
}

#[test]
fn ints(rt: HostRuntime) {
    assert!(rt;
        accepts(
            Kind::Int,
            &[
                b"-999999999999999",
                b"999999999999999",
                b"0",
                b"-0",
                b"00000000000000000001",
                b"-0999999999999999",
            ]
        )
    );
    assert!(rt;
        refuses(
            Kind::Int,
            &[
                b"-1000000000000000",
                b"1000000000000000",
                b"",
                b"-",
                b"+1",
                b"1.0",
                b"--1",
                b" 1",
                b"1\x01",
            ]
        )
    );
}

#[test]
fn counts(rt: HostRuntime) {
    for kind in [Kind::Length, Kind::NumInGroup, Kind::SeqNum] {
        assert!(rt; accepts(kind, &[b"0", b"9", b"000000001", b"999999999"]));
        assert!(rt;
            refuses(
                kind,
                &[b"", b"0000000001", b"1000000000", b"-1", b"1.", b"1x"]
            )
        );
    }
}

#[test]
fn prices(rt: HostRuntime) {
    for kind in [
        Kind::Price,
        Kind::Qty,
        Kind::Amt,
        Kind::PriceOffset,
        Kind::Percentage,
        Kind::Float,
    ] {
        assert!(rt;
            accepts(
                kind,
                &[
                    b"-999999999999999",
                    b"999999999999999",
                    b"-007.50",
                    b".5",
                    b"5.",
                    b"-.0",
                    b"99999999999999.9",
                    b"0.0000000000000001",
                    b"000.00000123456789012345",
                ]
            )
        );
        assert!(rt;
            refuses(
                kind,
                &[
                    b"-1000000000000000",
                    b"1000000000000000",
                    b"1.000000000000000",
                    b"0.1000000000000000",
                    b"",
                    b".",
                    b"-",
                    b"-.",
                    b"+1",
                    b"1.2.3",
                    b"1..2",
                    b"--1",
                    b"1e5",
                    b"1,5",
                ]
            )
        );
    }
}

#[test]
fn chars(rt: HostRuntime) {
    assert!(rt; accepts(Kind::Char, &[b"\x00", b"\x02", b"a", b"\xff"]));
    assert!(rt; refuses(Kind::Char, &[b"", b"\x01", b"ab"]));
}

#[test]
fn booleans(rt: HostRuntime) {
    assert!(rt; accepts(Kind::Boolean, &[b"Y", b"N"]));
    assert!(rt; refuses(Kind::Boolean, &[b"", b"y", b"n", b"X", b"YN"]));
}

#[test]
fn timestamps(rt: HostRuntime) {
    assert!(rt;
        accepts(
            Kind::UtcTimestamp,
            &[
                b"00000101-00:00:00",
                b"99991231-23:59:60",
                b"99991231-23:59:60.999",
                b"99991231-23:59:60.999999",
                b"99991231-23:59:60.999999999",
                b"20240229-10:00:00",
            ]
        )
    );
    assert!(rt;
        refuses(
            Kind::UtcTimestamp,
            &[
                b"00000100-00:00:00",
                b"99991232-00:00:00",
                b"20230229-10:00:00",
                b"20240102-24:00:00",
                b"20240102-10:60:00",
                b"20240102-10:00:61",
                b"20240102-10:00:00.",
                b"20240102-10:00:00.12",
                b"20240102-10:00:00.1234",
                b"20240102-10:00:00.1234567890",
                b"20240102 10:00:00",
                b"20240102",
                b"",
            ]
        )
    );
}

#[test]
fn times_of_day(rt: HostRuntime) {
    assert!(rt;
        accepts(
            Kind::UtcTimeOnly,
            &[
                b"00:00:00",
                b"23:59:60",
                b"00:00:60",
                b"23:59:59.000",
                b"23:59:59.000000",
                b"23:59:60.999999999",
            ]
        )
    );
    assert!(rt;
        refuses(
            Kind::UtcTimeOnly,
            &[
                b"24:00:00",
                b"23:60:00",
                b"23:59:61",
                b"0:00:00",
                b"00:00",
                b"00:00:00.",
                b"00:00:00.12",
                b"00:00:00.1234",
                b"00:00:00.1234567890",
                b"",
            ]
        )
    );
}

#[test]
fn dates(rt: HostRuntime) {
    for kind in [Kind::UtcDateOnly, Kind::LocalMktDate] {
        assert!(rt;
            accepts(
                kind,
                &[
                    b"00000101",
                    b"99991231",
                    b"20240229",
                    b"20000229",
                    b"20240430",
                ]
            )
        );
        assert!(rt;
            refuses(
                kind,
                &[
                    b"00000100",
                    b"99991232",
                    b"20230229",
                    b"19000229",
                    b"20240230",
                    b"20240431",
                    b"20240001",
                    b"20241301",
                    b"2024010",
                    b"202401011",
                    b"",
                ]
            )
        );
    }
}

#[test]
fn months(rt: HostRuntime) {
    assert!(rt;
        accepts(
            Kind::MonthYear,
            &[
                b"000001",
                b"999912",
                b"00000101",
                b"99991231",
                b"202402w1",
                b"202402w5",
                b"20240229",
            ]
        )
    );
    assert!(rt;
        refuses(
            Kind::MonthYear,
            &[
                b"000000",
                b"999913",
                b"00000100",
                b"99991232",
                b"202402w0",
                b"202402w6",
                b"20240230",
                b"202402W1",
                b"202402w",
                b"202402w11",
                b"202413w1",
                b"2024",
                b"",
            ]
        )
    );
}

#[test]
fn days_of_a_month(rt: HostRuntime) {
    assert!(rt; accepts(Kind::DayOfMonth, &[b"1", b"01", b"9", b"31"]));
    assert!(rt;
        refuses(
            Kind::DayOfMonth,
            &[b"0", b"00", b"32", b"99", b"001", b"", b"-1", b"1x"]
        )
    );
}

#[test]
fn texts(rt: HostRuntime) {
    for kind in [
        Kind::String,
        Kind::Currency,
        Kind::Exchange,
        Kind::Country,
        Kind::Data,
        Kind::MultipleValueString,
    ] {
        assert!(rt; accepts(kind, &[b"\x00", b" ", b"a b", b"\xff"]));
        assert!(rt; refuses(kind, &[b""]));
    }
}

#[test]
fn a_price_and_a_month_are_read(rt: HostRuntime) {
    assert!(rt; price_text(b"-007.50") && price_text(b".5") && price_text(b"5."));
    assert!(rt; !price_text(b".") && !price_text(b"+1") && !price_text(b"1.2.3"));
    assert!(rt; month_year(b"202402w5") && month_year(b"20240229"));
    assert!(rt; !month_year(b"202402w6") && !month_year(b"20240230"));
}
