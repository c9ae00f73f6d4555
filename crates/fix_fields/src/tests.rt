//! Times, numbers and flags, the place of a fault in a list of fields, and a layout with a group.
use crate::{FieldFault, Layout, Member, boolean, fields, int, time_text, utc_time};
use fix_base::{OutOfMemory, Precision, Tag};

#[test]
fn timestamps_say_their_times(rt: HostRuntime) {
    let cases = [
        (b"20240102-10:00:00".as_slice(), Some(1_704_189_600_000_000)),
        (
            b"20240102-10:00:00.123456789".as_slice(),
            Some(1_704_189_600_123_456),
        ),
        (b"20161231-23:59:60".as_slice(), Some(1_483_228_800_000_000)),
        (
            b"99991231-23:59:60".as_slice(),
            Some(253_402_300_800_000_000),
        ),
        (
            b"00000101-00:00:00".as_slice(),
            Some(-62_167_219_200_000_000),
        ),
        (b"20230229-10:00:00".as_slice(), None),
        (b"20240102-24:00:00".as_slice(), None),
        (b"20240102-10:00:00.1".as_slice(), None),
        (b"20240102-10:00:00.".as_slice(), None),
    ];
    for (text, time) in cases {
        assert_eq!(rt; utc_time(text), time);
    }
}

#[test]
fn times_are_written(rt: HostRuntime) {
    let seconds = time_text(1_704_189_600_999_999, Precision::Seconds);
    assert_eq!(rt; seconds.as_slice(), b"20240102-10:00:00".as_slice());
    let millis = time_text(1_704_189_600_000_000, Precision::Millis);
    assert_eq!(rt; millis.as_slice(), b"20240102-10:00:00.000".as_slice());
    let micros = time_text(4_102_444_799_999_999, Precision::Micros);
    assert_eq!(rt; micros.as_slice(), b"20991231-23:59:59.999999".as_slice());
}

#[test]
fn numbers_and_flags_are_read(rt: HostRuntime) {
    assert_eq!(rt; int(b"-0042"), Some(-42));
    assert_eq!(rt; int(b"0999999999999999"), Some(999_999_999_999_999));
    assert_eq!(rt; int(b"1000000000000000"), None);
    assert_eq!(rt; int(b"+1"), None);
    assert_eq!(rt; boolean(b"Y"), Some(true));
    assert_eq!(rt; boolean(b"y"), None);
}

#[test]
fn a_fault_is_where_no_field_begins(rt: HostRuntime) {
    let at = |bytes: &[u8]| match fields(bytes) {
        Ok(_) => None,
        Err(FieldFault { at }) => Some(at),
    };
    assert_eq!(rt; at(b"35=0\x01x"), Some(5));
    assert_eq!(rt; at(b"95=3\x0196=a\x01b\x01"), None);
    assert_eq!(rt; at(b"95=2\x0196=a\x01b\x01"), Some(5));
}

#[test]
fn a_layout_has_a_group(rt: HostRuntime) -> Result<(), OutOfMemory> {
    let (Some(count), Some(first)) = (Tag::new(453), Tag::new(448)) else {
        return Err(OutOfMemory);
    };
    let mut members = Vec::new(rt.alloc());
    let pushed = members.push(Member::Plain {
        tag: first,
        required: true,
    });
    assert!(rt; pushed.is_ok());
    let inner = Layout { members };
    let group = Member::Group {
        count,
        required: false,
        inner,
    };
    let Member::Group { count, inner, .. } = &group else {
        return Err(OutOfMemory);
    };
    assert!(rt; count.get() == 453 && inner.members.len() == 1);
    Ok(())
}
