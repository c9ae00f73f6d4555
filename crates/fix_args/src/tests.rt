//! What clap takes and what it doesn't: how a value is written, what is there twice, what is no flag. These are
//! no words of the tables.

use crate::{AcceptorArgs, InitiatorArgs, ScriptArgs, acceptor_args, initiator_args, script_args};

#[test]
fn values_are_written_in_two_ways(rt: HostRuntime) {
    let words = [
        "--stdio",
        "--settings=-f",
        "FIX.4.2",
        "--store",
        "S",
        "SELL",
        "BUY",
    ];
    let asked = AcceptorArgs::Stdio {
        settings: Some("-f"),
        store: Some("S"),
        begin: "FIX.4.2",
        sender: "SELL",
        target: "BUY",
    };
    assert_eq!(rt; acceptor_args(rt.alloc(), &words), Ok(Some(asked)));
}

#[test]
fn flags_are_anywhere(rt: HostRuntime) {
    let alloc = rt.alloc();
    let echo = AcceptorArgs::Serve {
        echo: true,
        settings: "s.cfg",
    };
    assert_eq!(rt; acceptor_args(alloc, &["s.cfg", "--echo"]), Ok(Some(echo)));
    let check = AcceptorArgs::Check { settings: "s.cfg" };
    assert_eq!(rt;
        acceptor_args(alloc, &["--check", "s.cfg"]),
        Ok(Some(check))
    );
    let dashed = AcceptorArgs::Serve {
        echo: false,
        settings: "-x",
    };
    assert_eq!(rt; acceptor_args(alloc, &["--", "-x"]), Ok(Some(dashed)));
}

#[test]
fn nothing_is_there_twice(rt: HostRuntime) {
    let alloc = rt.alloc();
    assert_eq!(rt; acceptor_args(alloc, &["--echo", "--echo", "s"]), Ok(None));
    let twice = [
        "--stdio",
        "--settings",
        "a",
        "--settings",
        "b",
        "F",
        "S",
        "B",
    ];
    assert_eq!(rt; acceptor_args(alloc, &twice), Ok(None));
}

#[test]
fn other_words_are_refused(rt: HostRuntime) {
    let alloc = rt.alloc();
    assert_eq!(rt; acceptor_args(alloc, &[]), Ok(None));
    assert_eq!(rt;
        acceptor_args(alloc, &["--stdio", "--settings", "-a", "F", "S", "B"]),
        Ok(None)
    );
    assert_eq!(rt; acceptor_args(alloc, &["--help"]), Ok(None));
    assert_eq!(rt; acceptor_args(alloc, &["--version"]), Ok(None));
    assert_eq!(rt; acceptor_args(alloc, &["--stdi", "F", "S", "B"]), Ok(None));
    assert_eq!(rt; acceptor_args(alloc, &["--echo=true", "f"]), Ok(None));
}

#[test]
fn a_line_is_met_as_a_whole(rt: HostRuntime) {
    let alloc = rt.alloc();
    assert_eq!(rt;
        acceptor_args(alloc, &["--stdio", "--check", "F", "S", "B"]),
        Ok(None)
    );
    assert_eq!(rt; acceptor_args(alloc, &["--store", "s", "f"]), Ok(None));
    assert_eq!(rt; acceptor_args(alloc, &["--stdio", "F", "S"]), Ok(None));
    assert_eq!(rt; acceptor_args(alloc, &["a", "b"]), Ok(None));
}

#[test]
fn drafts_are_sent_from_files(rt: HostRuntime) {
    let alloc = rt.alloc();
    let files = match initiator_args(alloc, &["--send", "s.cfg", "a", "b"]) {
        Ok(Some(InitiatorArgs::Send { settings, files })) if settings == "s.cfg" => files,
        _ => panic!(rt; "two files"),
    };
    assert_eq!(rt; files.len(), 2);
    assert_eq!(rt; files[0], "a");
    assert_eq!(rt; files[1], "b");
    assert!(rt; matches!(initiator_args(alloc, &["--send", "s.cfg"]), Ok(None)));
}

#[test]
fn sessions_are_dialled(rt: HostRuntime) {
    let alloc = rt.alloc();
    match initiator_args(alloc, &["s.cfg"]) {
        Ok(Some(InitiatorArgs::Serve { settings })) => assert_eq!(rt; settings, "s.cfg"),
        _ => panic!(rt; "sessions to dial"),
    }
    match initiator_args(alloc, &["s.cfg", "--check"]) {
        Ok(Some(InitiatorArgs::Check { settings })) => assert_eq!(rt; settings, "s.cfg"),
        _ => panic!(rt; "settings to check"),
    }
}

#[test]
fn a_script_is_run_or_made(rt: HostRuntime) {
    let alloc = rt.alloc();
    let run = ScriptArgs::Run {
        script: "a",
        settings: "b",
    };
    assert_eq!(rt; script_args(alloc, &["a", "b"]), Ok(Some(run)));
    let make = ScriptArgs::Make {
        count: "5",
        seed: "7",
    };
    assert_eq!(rt; script_args(alloc, &["--make", "5", "7"]), Ok(Some(make)));
    assert_eq!(rt; script_args(alloc, &["--make", "5"]), Ok(None));
}
