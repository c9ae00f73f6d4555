//! That with ample memory a message is judged: by the sample of FIX 4.2, an order, one without its ClOrdID (11), and a
//! TestRequest (1) without its TestReqID (112), with the dictionary and without.
use crate::{Rules, judge};
use fix_dict::{Dictionary, SAMPLE_42};
use fix_fields::first_value;
use fix_frame::{Framed, frame_at};
use fix_machine::Verdict;
use std::alloc::Global;
use std::test::Fail;

const ORDER: &[u8] =
    b"8=FIX.4.2\x019=102\x0135=D\x0134=2\x0149=BUY\x0152=20240102-10:00:00\x0156=SELL\x0111=A1\x0121=1\x0155=IBM\x0154=1\x0160=20240102-10:00:00\x0140=1\x0138=100\x0110=138\x01";

const NO_ID: &[u8] =
    b"8=FIX.4.2\x019=96\x0135=D\x0134=2\x0149=BUY\x0152=20240102-10:00:00\x0156=SELL\x0121=1\x0155=IBM\x0154=1\x0160=20240102-10:00:00\x0140=1\x0138=100\x0110=084\x01";

const NO_TEST_ID: &[u8] =
    b"8=FIX.4.2\x019=46\x0135=1\x0134=2\x0149=BUY\x0152=20240102-10:00:00\x0156=SELL\x0110=020\x01";

// The reason and the tag of the fault that the message is said to have: 0 and 0 where it has none, and 1 and 0 where it
// is out of memory or no message.
fn judged(alloc: Global, dict: Option<&Dictionary>, bytes: &[u8]) -> (u16, u32) {
    let Framed::Frame(frame) = frame_at(bytes, 0) else {
        return (1, 0);
    };
    let Some(kind) = first_value(frame, 35) else {
        return (1, 0);
    };
    let rules = Rules { dict, order: true };
    match judge(alloc, &rules, frame, kind) {
        Ok(Verdict::Bad(fault)) => match fault.tag {
            None => (fault.reason, 0),
            Some(tag) => (fault.reason, tag.get()),
        },
        Ok(Verdict::App) => (0, 0),
        Ok(Verdict::Admin(_)) => (0, 0),
        Err(_) => (1, 0),
    }
}

#[test]
fn messages_are_judged(rt: HostRuntime) -> Result<(), Fail> {
    let alloc = rt.alloc();
    let Ok(dict) = Dictionary::read(alloc, SAMPLE_42.as_bytes()) else {
        assert!(rt; false);
        return Ok(());
    };
    assert!(rt; judged(alloc, Some(&dict), ORDER) == (0, 0));
    assert!(rt; judged(alloc, Some(&dict), NO_ID) == (1, 11));
    assert!(rt; judged(alloc, None, NO_ID) == (0, 0));
    assert!(rt; judged(alloc, Some(&dict), NO_TEST_ID) == (1, 112));
    assert!(rt; judged(alloc, None, NO_TEST_ID) == (1, 112));
    Ok(())
}
