//! The texts of a draft, and each refusal but out of memory.
use crate::{Draft, DraftFault, DraftFields};
use fix_base::{OutOfMemory, Tag};
use std::alloc::Global;

// The fields with these tags and values.
fn fields_of(alloc: Global, given: &[(u32, &[u8])]) -> Result<DraftFields, OutOfMemory> {
    let mut fields = DraftFields::new(alloc);
    for (tag, value) in given {
        if let Some(tag) = Tag::new(*tag) {
            fields.push(tag, value)?;
        }
    }
    Ok(fields)
}

// The name of a refusal and its tag.
fn name_of(fault: DraftFault) -> (&'static str, u32) {
    match fault {
        DraftFault::BadKind => ("BadKind", 0),
        DraftFault::ReservedTag(tag) => ("ReservedTag", tag.get()),
        DraftFault::HeaderOrder(tag) => ("HeaderOrder", tag.get()),
        DraftFault::EmptyValue(tag) => ("EmptyValue", tag.get()),
        DraftFault::SohInValue(tag) => ("SohInValue", tag.get()),
        DraftFault::LengthMismatch(tag) => ("LengthMismatch", tag.get()),
        DraftFault::TooLarge => ("TooLarge", 0),
        DraftFault::OutOfMemory => ("OutOfMemory", 0),
    }
}

// Why there is no draft.
fn refusal(
    alloc: Global,
    kind: &[u8],
    given: &[(u32, &[u8])],
) -> Result<(&'static str, u32), OutOfMemory> {
    let fields = fields_of(alloc, given)?;
    match Draft::new(alloc, kind, &fields) {
        Ok(_) => Ok(("none", 0)),
        Err(fault) => Ok(name_of(fault)),
    }
}

#[test]
fn a_draft_is_its_kind_and_its_fields(rt: HostRuntime) -> Result<(), OutOfMemory> {
    let fields = fields_of(
        rt.alloc(),
        &[(50, b"T1"), (55, b"XYZ"), (95, b"3"), (96, b"a\x01b")],
    )?;
    let Ok(draft) = Draft::new(rt.alloc(), b"D", &fields) else {
        return Err(OutOfMemory);
    };
    assert_eq!(rt; draft.kind(), b"D".as_slice());
    assert_eq!(rt;
        draft.rest(),
        b"50=T1\x0155=XYZ\x0195=3\x0196=a\x01b\x01".as_slice()
    );
    Ok(())
}

#[test]
fn each_refusal(rt: HostRuntime) -> Result<(), OutOfMemory> {
    let cases: [(&[(u32, &[u8])], (&str, u32)); 14] = [
        (&[(43, b"Y")], ("ReservedTag", 43)),
        (&[(58, b"")], ("EmptyValue", 58)),
        (&[(58, b"a\x01")], ("SohInValue", 58)),
        (&[(95, b"3"), (96, b"ab")], ("LengthMismatch", 96)),
        (&[(55, b"XYZ"), (50, b"T1")], ("HeaderOrder", 50)),
        (&[(43, b"")], ("ReservedTag", 43)),
        (&[(55, b"X"), (50, b"")], ("HeaderOrder", 50)),
        (&[(58, b""), (43, b"Y")], ("EmptyValue", 58)),
        (&[(96, b"ab")], ("LengthMismatch", 96)),
        (
            &[(95, b"2"), (58, b"x"), (96, b"ab")],
            ("LengthMismatch", 96),
        ),
        (&[(95, b"00000002"), (96, b"ab")], ("LengthMismatch", 96)),
        (&[(95, b"0000002"), (96, b"ab")], ("none", 0)),
        (&[(95, b"2"), (58, b"x")], ("none", 0)),
        (&[], ("none", 0)),
    ];
    for (given, wanted) in cases {
        let found = refusal(rt.alloc(), b"D", given)?;
        assert!(rt; found.0 == wanted.0 && found.1 == wanted.1);
    }
    Ok(())
}

#[test]
fn each_kind(rt: HostRuntime) -> Result<(), OutOfMemory> {
    let bad: [&[u8]; 10] = [
        b"",
        b"123456789",
        b"D\x01",
        b"0",
        b"1",
        b"2",
        b"3",
        b"4",
        b"5",
        b"A",
    ];
    for kind in bad {
        assert!(rt; refusal(rt.alloc(), kind, &[(43, b"Y")])?.0 == "BadKind");
    }
    let good: [&[u8]; 4] = [b"6", b"12345678", b"AA", b"j"];
    for kind in good {
        assert!(rt; refusal(rt.alloc(), kind, &[(58, b"a")])?.0 == "none");
    }
    Ok(())
}

#[test]
fn each_tag_of_the_engine(rt: HostRuntime) -> Result<(), OutOfMemory> {
    for tag in [8, 9, 10, 34, 35, 43, 49, 52, 56, 89, 90, 91, 93, 122] {
        assert!(rt; refusal(rt.alloc(), b"D", &[(tag, b"1")])?.0 == "ReservedTag");
    }
    Ok(())
}

// Why there is no draft whose Text (58) has so many bytes.
fn refusal_of_text(alloc: Global, count: usize) -> Result<(&'static str, u32), OutOfMemory> {
    let Ok(text) = Vec::from_elem(alloc, b'x', count) else {
        return Err(OutOfMemory);
    };
    refusal(alloc, b"D", &[(58, &text)])
}

#[test]
fn the_longest_body(rt: HostRuntime) -> Result<(), OutOfMemory> {
    // `35=D|` and `58=` with its SOH are 9 bytes
    assert!(rt; refusal_of_text(rt.alloc(), 1_048_055)?.0 == "none");
    assert!(rt; refusal_of_text(rt.alloc(), 1_048_056)?.0 == "TooLarge");
    Ok(())
}
