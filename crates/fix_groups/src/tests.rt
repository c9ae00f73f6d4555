//! That messages are split and given back, and that wrong counts and wrong orders are told.
use crate::{GroupFault, flatten, has_no_twice, split};
use fix_base::Tag;
use fix_fields::{Layout, Member, fields};
use std::alloc::{AllocError, Global};

fn count_wrong(count: u32) -> Option<GroupFault> {
    match Tag::new(count) {
        Some(tag) => Some(GroupFault::CountWrong(tag)),
        None => None,
    }
}

fn order_wrong(count: u32) -> Option<GroupFault> {
    match Tag::new(count) {
        Some(tag) => Some(GroupFault::OrderWrong(tag)),
        None => None,
    }
}

fn push_plain(members: &mut Vec<Member>, tag: u32) -> Result<(), AllocError> {
    if let Some(tag) = Tag::new(tag) {
        let member = Member::Plain {
            tag,
            required: false,
        };
        members.push(member)?;
    }
    Ok(())
}

fn push_group(members: &mut Vec<Member>, count: u32, inner: Layout) -> Result<(), AllocError> {
    if let Some(count) = Tag::new(count) {
        let member = Member::Group {
            count,
            required: false,
            inner,
        };
        members.push(member)?;
    }
    Ok(())
}

// NoPartyIDs (453) of FIX 4.4 with NoPartySubIDs (802) inside it, among fields of an order.
fn layout(alloc: Global) -> Result<Layout, AllocError> {
    let mut subs = Vec::new(alloc);
    push_plain(&mut subs, 523)?;
    push_plain(&mut subs, 803)?;
    let mut parties = Vec::new(alloc);
    push_plain(&mut parties, 448)?;
    push_plain(&mut parties, 447)?;
    push_group(&mut parties, 802, Layout { members: subs })?;
    push_plain(&mut parties, 452)?;
    let mut members = Vec::new(alloc);
    push_plain(&mut members, 11)?;
    push_group(&mut members, 453, Layout { members: parties })?;
    push_plain(&mut members, 55)?;
    Ok(Layout { members })
}

// The text is split into a tree that gives the other text back.
fn gives(alloc: Global, text: &[u8], wanted: &[u8]) -> bool {
    let Ok(layout) = layout(alloc) else {
        return false;
    };
    if !has_no_twice(&layout) {
        return false;
    }
    let Ok(list) = fields(text) else {
        return false;
    };
    match split(alloc, list, &layout) {
        Ok(tree) => match flatten(alloc, &tree) {
            Ok(out) => out.as_slice() == wanted,
            Err(_) => false,
        },
        Err(_) => false,
    }
}

// The text is refused with this fault.
fn fails(alloc: Global, text: &[u8], wanted: Option<GroupFault>) -> bool {
    let Ok(layout) = layout(alloc) else {
        return false;
    };
    if !has_no_twice(&layout) {
        return false;
    }
    let Ok(list) = fields(text) else {
        return false;
    };
    split(alloc, list, &layout).err() == wanted
}

#[test]
fn instances_are_split_and_given_back(rt: HostRuntime) {
    let one = b"453=1\x01448=P1\x01".as_slice();
    assert!(rt; gives(rt.alloc(), one, one));
    let none = b"11=A\x01453=0\x0155=X\x01".as_slice();
    assert!(rt; gives(rt.alloc(), none, none));
    let twice = b"453=1\x01448=A\x01453=1\x01448=B\x01".as_slice();
    assert!(rt; gives(rt.alloc(), twice, twice));
}

#[test]
fn leading_zeros_of_a_count_go(rt: HostRuntime) {
    let text = b"453=02\x01448=A\x01448=B\x01";
    let plain = b"453=2\x01448=A\x01448=B\x01";
    assert!(rt; gives(rt.alloc(), text, plain));
}

#[test]
fn groups_inside_are_split_and_given_back(rt: HostRuntime) {
    let text =
        b"453=2\x01448=P\x01447=D\x01802=2\x01523=a\x01803=1\x01523=b\x01452=3\x01448=Q\x0155=X\x01".as_slice();
    assert!(rt; gives(rt.alloc(), text, text));
}

#[test]
fn a_wrong_number_names_its_count(rt: HostRuntime) {
    assert!(rt; fails(rt.alloc(), b"453=2\x01448=P1\x01", count_wrong(453)));
    assert!(rt;
        fails(
            rt.alloc(),
            b"453=2\x01448=P\x01802=5\x01523=a\x01",
            count_wrong(453)
        )
    );
    assert!(rt;
        fails(
            rt.alloc(),
            b"453=1\x01448=P\x01802=5\x01523=a\x01",
            count_wrong(802)
        )
    );
}

#[test]
fn a_count_is_one_to_nine_digits(rt: HostRuntime) {
    assert!(rt; fails(rt.alloc(), b"453=x\x01448=P\x01", count_wrong(453)));
    assert!(rt; fails(rt.alloc(), b"453=0000000001\x01448=P\x01", count_wrong(453)));
    assert!(rt; fails(rt.alloc(), b"453=\x0155=X\x01", count_wrong(453)));
}

#[test]
fn a_wrong_order_names_its_count(rt: HostRuntime) {
    assert!(rt;
        fails(
            rt.alloc(),
            b"453=1\x01447=D\x01448=P1\x01",
            order_wrong(453)
        )
    );
    assert!(rt; fails(rt.alloc(), b"453=0\x01447=D\x01", order_wrong(453)));
    assert!(rt;
        fails(
            rt.alloc(),
            b"453=1\x01448=P\x01447=D\x01447=E\x01",
            order_wrong(453)
        )
    );
}

#[test]
fn a_member_outside_every_run_is_out_of_order(rt: HostRuntime) {
    assert!(rt; fails(rt.alloc(), b"11=A\x01447=D\x01", order_wrong(453)));
    assert!(rt;
        fails(
            rt.alloc(),
            b"453=2\x01448=P\x01802=1\x01523=a\x01448=Q\x01523=b\x01",
            order_wrong(802)
        )
    );
    assert!(rt; fails(rt.alloc(), b"802=1\x01523=a\x01", order_wrong(453)));
}

// Eight groups, each inside the one before.
fn nested(alloc: Global) -> Result<Layout, AllocError> {
    let mut inner = Vec::new(alloc);
    push_plain(&mut inner, 908)?;
    let mut layout = Layout { members: inner };
    for depth in 0..8u32 {
        let mut members = Vec::new(alloc);
        push_plain(&mut members, 907 - depth)?;
        push_group(&mut members, 808 - depth, layout)?;
        layout = Layout { members };
    }
    Ok(layout)
}

fn nested_gives(alloc: Global, text: &[u8]) -> bool {
    let Ok(layout) = nested(alloc) else {
        return false;
    };
    if !has_no_twice(&layout) {
        return false;
    }
    let Ok(list) = fields(text) else {
        return false;
    };
    match split(alloc, list, &layout) {
        Ok(tree) => match flatten(alloc, &tree) {
            Ok(out) => out.as_slice() == text,
            Err(_) => false,
        },
        Err(_) => false,
    }
}

#[test]
fn groups_nest_eight_deep(rt: HostRuntime) {
    let text =
        b"900=a\x01801=1\x01901=b\x01802=1\x01902=c\x01803=1\x01903=d\x01804=1\x01904=e\x01805=1\x01905=f\x01806=1\x01906=g\x01807=1\x01907=h\x01808=2\x01908=i\x01908=j\x01";
    assert!(rt; nested_gives(rt.alloc(), text));
}
