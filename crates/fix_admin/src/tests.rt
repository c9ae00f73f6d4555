//! The fields of session messages and of rejects, byte for byte.
use crate::{LogoutText, Say, build, business};
use fix_base::{Begin, Fault, OutOfMemory, Tag};
use std::alloc::Global;

fn is_built(alloc: Global, begin: Begin, say: &Say<'_>, text: &[u8]) -> Result<bool, OutOfMemory> {
    Ok(build(alloc, begin, say)?.as_slice() == text)
}

#[test]
fn what_is_said_has_the_fields_of_its_table(rt: HostRuntime) -> Result<(), OutOfMemory> {
    let alloc = rt.alloc();
    let gap = Say::ResendRequest { from: 2, to: 0 };
    assert!(rt; is_built(alloc, Begin::Fix42, &gap, b"7=2\x0116=0\x01")?);
    let echo = Say::Heartbeat { id: Some(b"PING") };
    assert!(rt; is_built(alloc, Begin::Fix42, &echo, b"112=PING\x01")?);
    let beat = Say::Heartbeat { id: None };
    assert!(rt; is_built(alloc, Begin::Fix42, &beat, b"")?);
    assert!(rt; is_built(alloc, Begin::Fix42, &Say::TestRequest, b"112=TEST\x01")?);
    let fill = Say::GapFill { next: 5 };
    assert!(rt; is_built(alloc, Begin::Fix42, &fill, b"36=5\x01123=Y\x01")?);
    let low = Say::Logout {
        text: LogoutText::TooLow {
            expected: 5,
            received: 1,
        },
    };
    let text = b"58=MsgSeqNum too low, expecting 5 but received 1\x01";
    assert!(rt; is_built(alloc, Begin::Fix42, &low, text)?);
    let logon = Say::Logon {
        heart: 30,
        reset: true,
        version: Some(9),
    };
    assert!(rt;
        is_built(
            alloc,
            Begin::Fix42,
            &logon,
            b"98=0\x01108=30\x01141=Y\x011137=9\x01"
        )?
    );
    Ok(())
}

#[test]
fn a_reject_names_its_reason(rt: HostRuntime) -> Result<(), OutOfMemory> {
    let alloc = rt.alloc();
    let missing = Say::Reject {
        about: 2,
        kind: b"D",
        fault: Fault {
            reason: 1,
            tag: Tag::new(54),
        },
    };
    let text = b"45=2\x01371=54\x01372=D\x01373=1\x0158=Required tag missing\x01";
    assert!(rt; is_built(alloc, Begin::Fix42, &missing, text)?);
    let group = Say::Reject {
        about: 2,
        kind: b"D",
        fault: Fault {
            reason: 16,
            tag: Tag::new(78),
        },
    };
    let text = b"45=2\x01371=78\x01372=D\x0158=Incorrect NumInGroup count\x01";
    assert!(rt; is_built(alloc, Begin::Fix42, &group, text)?);
    let text = b"45=2\x01371=78\x01372=D\x01373=16\x0158=Incorrect NumInGroup count\x01";
    assert!(rt; is_built(alloc, Begin::Fix44, &group, text)?);
    let unsupported = business(alloc, 2, b"8", 3, b"Unsupported message type")?;
    let text = b"45=2\x01372=8\x01380=3\x0158=Unsupported message type\x01";
    assert!(rt; unsupported.as_slice() == text.as_slice());
    Ok(())
}
