//! That files that are no dictionaries are refused, each with its first fault.
use crate::{DictFault, Dictionary};
use fix_base::{Bytes, Tag};
use std::alloc::{AllocError, Global};
use std::test::Fail;

// Texts that aren't of the form, and the path of the first wrong place.
const WHOLE: [(&str, &str); 17] = [
    (r#"[]"#, ""),
    (r#"{}"#, "begin"),
    (r#"{"begin":"FIX.5.0"}"#, "begin"),
    (r#"{"begin":"FIX.4.2"}"#, "fields"),
    (r#"{"begin":"FIX.4.2","fields":{}}"#, "fields"),
    (r#"{"begin":"FIX.4.4","fields":[3]}"#, "fields[0]"),
    (r#"{"begin":"FIX.4.4","fields":[{}]}"#, "fields[0].tag"),
    (
        r#"{"begin":"FIX.4.4","fields":[{"tag":11.0}]}"#,
        "fields[0].tag",
    ),
    (
        r#"{"begin":"FIX.4.4","fields":[{"tag":0}]}"#,
        "fields[0].tag",
    ),
    (
        r#"{"begin":"FIX.4.4","fields":[{"tag":1000000000}]}"#,
        "fields[0].tag",
    ),
    (
        r#"{"begin":"FIX.4.4","fields":[{"tag":11}]}"#,
        "fields[0].name",
    ),
    (
        r#"{"begin":"FIX.4.4","fields":[{"tag":11,"name":"a","type":"STRING"},{"tag":12,"name":"b","type":"TEXT"}]}"#,
        "fields[1].type",
    ),
    (
        r#"{"begin":"FIX.4.4","fields":[{"tag":11,"name":"a","type":"STRING","values":3}]}"#,
        "fields[0].values",
    ),
    (
        r#"{"begin":"FIX.4.4","fields":[{"tag":11,"name":"a","type":"STRING","values":["a",""]}]}"#,
        "fields[0].values[1]",
    ),
    (r#"{"begin":"FIX.4.4","fields":[]}"#, "header"),
    (r#"{"begin":"FIX.4.4","fields":[],"header":[]}"#, "trailer"),
    (
        r#"{"begin":"FIX.4.4","fields":[],"header":[],"trailer":[]}"#,
        "messages",
    ),
];

// The same for the members of a header.
const MEMBERS: [(&str, &str); 11] = [
    (r#"3"#, "header[0]"),
    (r#"{}"#, "header[0].required"),
    (r#"{"required":true}"#, "header[0].tag"),
    (r#"{"required":true,"tag":1,"group":2}"#, "header[0]"),
    (r#"{"required":true,"tag":1.1e1}"#, "header[0].tag"),
    (r#"{"required":true,"group":"2"}"#, "header[0].group"),
    (r#"{"required":true,"group":2}"#, "header[0].members"),
    (
        r#"{"required":true,"group":2,"members":[]}"#,
        "header[0].members",
    ),
    (
        r#"{"required":true,"group":2,"members":[{"required":true,"group":3,"members":[]}]}"#,
        "header[0].members[0].tag",
    ),
    (
        r#"{"required":true,"tag":1},{"tag":2}"#,
        "header[1].required",
    ),
    (
        r#"{"required":true,"tag":1},{"required":true,"group":2,"members":[{"required":true,"tag":3},{"required":false,"tag":4},{"required":1}]}"#,
        "header[1].members[2].required",
    ),
];

// The same for messages.
const MESSAGES: [(&str, &str); 8] = [
    (r#"3"#, "messages[0]"),
    (r#"{}"#, "messages[0].type"),
    (r#"{"type":""}"#, "messages[0].type"),
    (r#"{"type":"123456789"}"#, "messages[0].type"),
    (r#"{"type":"\u0001"}"#, "messages[0].type"),
    (r#"{"type":"D"}"#, "messages[0].name"),
    (r#"{"type":"D","name":"d"}"#, "messages[0].members"),
    (
        r#"{"type":"D","name":"d","members":[{"required":true,"tag":1},{"required":true,"tag":2},{"required":true}]}"#,
        "messages[0].members[2].tag",
    ),
];

// Fields with the tags 1 to 29.
const FIELDS: &str =
    r#"{"tag":1,"name":"f","type":"STRING"},{"tag":2,"name":"f","type":"STRING"},{"tag":3,"name":"f","type":"STRING"},{"tag":4,"name":"f","type":"STRING"},{"tag":5,"name":"f","type":"STRING"},{"tag":6,"name":"f","type":"STRING"},{"tag":7,"name":"f","type":"STRING"},{"tag":8,"name":"f","type":"STRING"},{"tag":9,"name":"f","type":"STRING"},{"tag":10,"name":"f","type":"STRING"},{"tag":11,"name":"f","type":"STRING"},{"tag":12,"name":"f","type":"STRING"},{"tag":13,"name":"f","type":"STRING"},{"tag":14,"name":"f","type":"STRING"},{"tag":15,"name":"f","type":"STRING"},{"tag":16,"name":"f","type":"STRING"},{"tag":17,"name":"f","type":"STRING"},{"tag":18,"name":"f","type":"STRING"},{"tag":19,"name":"f","type":"STRING"},{"tag":20,"name":"f","type":"STRING"},{"tag":21,"name":"f","type":"STRING"},{"tag":22,"name":"f","type":"STRING"},{"tag":23,"name":"f","type":"STRING"},{"tag":24,"name":"f","type":"STRING"},{"tag":25,"name":"f","type":"STRING"},{"tag":26,"name":"f","type":"STRING"},{"tag":27,"name":"f","type":"STRING"},{"tag":28,"name":"f","type":"STRING"},{"tag":29,"name":"f","type":"STRING"}"#;

// Eight groups, and nine, one in another.
const EIGHT: &str =
    r#"{"required":false,"group":1,"members":[{"required":false,"tag":11},{"required":false,"group":2,"members":[{"required":false,"tag":12},{"required":false,"group":3,"members":[{"required":false,"tag":13},{"required":false,"group":4,"members":[{"required":false,"tag":14},{"required":false,"group":5,"members":[{"required":false,"tag":15},{"required":false,"group":6,"members":[{"required":false,"tag":16},{"required":false,"group":7,"members":[{"required":false,"tag":17},{"required":false,"group":8,"members":[{"required":false,"tag":18},{"required":false,"tag":28}]}]}]}]}]}]}]}]}"#;

const NINE: &str =
    r#"{"required":false,"group":1,"members":[{"required":false,"tag":11},{"required":false,"group":2,"members":[{"required":false,"tag":12},{"required":false,"group":3,"members":[{"required":false,"tag":13},{"required":false,"group":4,"members":[{"required":false,"tag":14},{"required":false,"group":5,"members":[{"required":false,"tag":15},{"required":false,"group":6,"members":[{"required":false,"tag":16},{"required":false,"group":7,"members":[{"required":false,"tag":17},{"required":false,"group":8,"members":[{"required":false,"tag":18},{"required":false,"group":9,"members":[{"required":false,"tag":19},{"required":false,"tag":29}]}]}]}]}]}]}]}]}]}"#;

fn whole(alloc: Global, header: &str, trailer: &str, messages: &str) -> Result<String, AllocError> {
    format!(in alloc;
        "{{\"begin\":\"FIX.4.4\",\"fields\":[{FIELDS}],\"header\":[{header}],\"trailer\":[{trailer}],\"messages\":[{messages}]}}"
    )
}

fn refusal(alloc: Global, json: &str) -> Option<DictFault> {
    Dictionary::read(alloc, json.as_bytes()).err()
}

fn shape(alloc: Global, path: &str) -> Option<DictFault> {
    match Bytes::copy(alloc, path.as_bytes()) {
        Ok(path) => Some(DictFault::BadShape(path)),
        Err(_) => Some(DictFault::OutOfMemory),
    }
}

fn duplicate(tag: u32) -> Option<DictFault> {
    match Tag::new(tag) {
        Some(tag) => Some(DictFault::DuplicateTag(tag)),
        None => Some(DictFault::OutOfMemory),
    }
}

fn unknown(tag: u32) -> Option<DictFault> {
    match Tag::new(tag) {
        Some(tag) => Some(DictFault::UnknownTag(tag)),
        None => Some(DictFault::OutOfMemory),
    }
}

#[test]
fn bytes_that_are_no_json(rt: HostRuntime) {
    assert!(rt; refusal(rt.alloc(), "{") == Some(DictFault::NotJson));
}

#[test]
fn the_first_wrong_place_is_named(rt: HostRuntime) {
    for (json, path) in &WHOLE {
        assert!(rt; refusal(rt.alloc(), json) == shape(rt.alloc(), path));
    }
}

#[test]
fn a_wrong_member_is_named(rt: HostRuntime) -> Result<(), Fail> {
    for (header, path) in &MEMBERS {
        let json = whole(rt.alloc(), header, "", "")?;
        assert!(rt; refusal(rt.alloc(), &json) == shape(rt.alloc(), path));
    }
    Ok(())
}

#[test]
fn a_wrong_message_is_named(rt: HostRuntime) -> Result<(), Fail> {
    for (messages, path) in &MESSAGES {
        let json = whole(rt.alloc(), "", "", messages)?;
        assert!(rt; refusal(rt.alloc(), &json) == shape(rt.alloc(), path));
    }
    Ok(())
}

#[test]
fn two_fields_of_one_tag(rt: HostRuntime) {
    let json = r#"{"begin":"FIX.4.2","fields":[{"tag":11,"name":"a","type":"INT"},{"tag":11}]}"#;
    assert!(rt; refusal(rt.alloc(), json) == duplicate(11));
}

#[test]
fn a_tag_twice_in_header_and_trailer(rt: HostRuntime) -> Result<(), Fail> {
    let member = r#"{"required":true,"tag":7}"#;
    let json = whole(rt.alloc(), member, member, "")?;
    assert!(rt; refusal(rt.alloc(), &json) == duplicate(7));
    Ok(())
}

#[test]
fn a_tag_twice_in_a_message(rt: HostRuntime) -> Result<(), Fail> {
    let message =
        r#"{"type":"D","name":"d","members":[{"required":true,"tag":7},{"required":true,"group":8,"members":[{"required":true,"tag":7}]}]}"#;
    let json = whole(rt.alloc(), "", "", message)?;
    assert!(rt; refusal(rt.alloc(), &json) == duplicate(7));
    Ok(())
}

#[test]
fn a_member_that_no_field_names(rt: HostRuntime) -> Result<(), Fail> {
    let json = whole(rt.alloc(), r#"{"required":true,"tag":999}"#, "", "")?;
    assert!(rt; refusal(rt.alloc(), &json) == unknown(999));
    Ok(())
}

#[test]
fn two_messages_of_one_type(rt: HostRuntime) -> Result<(), Fail> {
    let json = whole(
        rt.alloc(),
        "",
        "",
        r#"{"type":"D","name":"d","members":[]},{"type":"D"}"#,
    )?;
    let wanted = DictFault::DuplicateType(Bytes::copy(rt.alloc(), b"D")?);
    assert!(rt; refusal(rt.alloc(), &json) == Some(wanted));
    Ok(())
}

#[test]
fn groups_nine_deep(rt: HostRuntime) -> Result<(), Fail> {
    let eight = whole(rt.alloc(), EIGHT, "", "")?;
    assert!(rt; refusal(rt.alloc(), &eight).is_none());
    let nine = whole(rt.alloc(), NINE, "", "")?;
    assert!(rt; refusal(rt.alloc(), &nine) == Some(DictFault::DepthPassed));
    Ok(())
}
