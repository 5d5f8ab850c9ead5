//! One start after another from the same stored log.
use super::checks::holds;
use super::deeds::{Case, Deed, all_in_memory};
use super::files::done_over;
use super::serving::{QUITS, Session, Start, THREE_WHOLE, TWO_WHOLE};
use log::Log;
use sqlite::Connection;
use std::fs;
use std::process::Abort;
use std::rt::HostRuntime;
use std::sync::Wait;
use std::test::Fail;
use std::thread::Threads;
use std::time::Clock;

const FIRST: Session<'static> = Session {
    input: br#"["open","d"]
["assign","d",[0,"k"],"v"]
"#,
    read_after: usize::MAX,
};

const NEXT: Session<'static> = Session {
    input: br#"["open","d"]
["assign","d",[0,"k"],1]
["account","d"]
["ops","d",[["srv-1",1]],64]
["values","d",[0,"k"]]
"#,
    read_after: usize::MAX,
};

const NEXT_REPLIES: &[u8] = br#"["opened",1]
["applied",1,0,[2,"srv-2"]]
["account",1]
["ops",[["op",[2,"srv-2"],[["srv-1",1]],[[["m",0]],"k"],["assign",1]]]]
["values",[1]]
"#;

const MADE_UP: Session<'static> = Session {
    input: br#"["open","d"]
["deliver","d",["op",[1,"srv-2"],[],[[["m",0]],"k"],["assign","theirs"]]]
["deliver","d",["op",[1,"srv-3"],[],[[["m",0]],"k"],["assign","theirs too"]]]
"#,
    read_after: usize::MAX,
};

const BOTH: Session<'static> = Session {
    input: br#"["open","e"]
["assign","e",[0,"k"],1]
["open","d"]
["assign","d",[0,"k"],2]
["assign","d",[0,"k"],3]
"#,
    read_after: usize::MAX,
};

const READ_BOTH: Session<'static> = Session {
    input: br#"["open","d"]
["values","d",[0,"k"]]
["open","e"]
["values","e",[0,"k"]]
"#,
    read_after: usize::MAX,
};

const BOTH_REPLIES: &[u8] = br#"["opened",1]
["values",[3]]
["opened",1]
["values",[1]]
"#;

static STARTS: [Case<'static>; 2] = [
    Case {
        name: "serve_check_serve",
        documents: &["d"],
        deeds: &[
            Deed::Serves(Start {
                server: "srv",
                sessions: &[THREE_WHOLE, TWO_WHOLE],
                status: 0,
                totals: b"[\"total\",\"d\",5,5,5]\n",
                replies: None,
            }),
            Deed::Holds(b"[\"doc\",\"d\",5,[[\"srv-1\",5]]]\n[\"epoch\",1]\n"),
            Deed::Serves(Start {
                server: "srv",
                sessions: &[QUITS],
                status: 0,
                totals: b"[\"total\",\"d\",0,5,5]\n",
                replies: Some(b"[\"bye\"]\n"),
            }),
            Deed::Holds(b"[\"doc\",\"d\",5,[[\"srv-1\",5]]]\n[\"epoch\",2]\n"),
        ],
    },
    Case {
        name: "restart_from_copy",
        documents: &["d"],
        deeds: &[
            Deed::Serves(Start {
                server: "srv",
                sessions: &[FIRST],
                status: 0,
                totals: b"[\"total\",\"d\",1,1,1]\n",
                replies: Some(b"[\"opened\",1]\n[\"applied\",1,0,[1,\"srv-1\"]]\n"),
            }),
            Deed::Holds(b"[\"doc\",\"d\",1,[[\"srv-1\",1]]]\n[\"epoch\",1]\n"),
            Deed::Serves(Start {
                server: "srv",
                sessions: &[NEXT],
                status: 0,
                totals: b"[\"total\",\"d\",1,2,2]\n",
                replies: Some(NEXT_REPLIES),
            }),
            Deed::Holds(b"[\"doc\",\"d\",2,[[\"srv-1\",1],[\"srv-2\",2]]]\n[\"epoch\",2]\n"),
        ],
    },
];

// A name that a peer has made up, and documents that are found by their names.
static OTHER_NAMES: [Case<'static>; 2] = [
    Case {
        name: "name_that_a_peer_made_up_is_not_used",
        documents: &["d"],
        deeds: &[
            Deed::Serves(Start {
                server: "srv",
                sessions: &[MADE_UP],
                status: 0,
                totals: b"[\"total\",\"d\",2,2,2]\n",
                replies: None,
            }),
            Deed::Holds(b"[\"doc\",\"d\",2,[[\"srv-2\",1],[\"srv-3\",1]]]\n[\"epoch\",1]\n"),
            Deed::Serves(Start {
                server: "srv",
                sessions: &[FIRST],
                status: 0,
                totals: b"[\"total\",\"d\",1,3,3]\n",
                replies: Some(b"[\"opened\",1]\n[\"applied\",1,0,[2,\"srv-4\"]]\n"),
            }),
            Deed::Holds(
                b"[\"doc\",\"d\",3,[[\"srv-2\",1],[\"srv-3\",1],[\"srv-4\",2]]]\n[\"epoch\",4]\n",
            ),
        ],
    },
    Case {
        name: "documents_in_their_places",
        documents: &["d", "e"],
        deeds: &[
            Deed::Serves(Start {
                server: "srv",
                sessions: &[BOTH],
                status: 0,
                totals: b"[\"total\",\"d\",2,2,2]\n[\"total\",\"e\",1,1,1]\n",
                replies: None,
            }),
            Deed::Holds(
                b"[\"doc\",\"d\",2,[[\"srv-1\",2]]]\n[\"doc\",\"e\",1,[[\"srv-1\",1]]]\n[\"epoch\",1]\n",
            ),
            Deed::Serves(Start {
                server: "srv",
                sessions: &[READ_BOTH],
                status: 0,
                totals: b"[\"total\",\"d\",0,2,2]\n[\"total\",\"e\",0,1,1]\n",
                replies: Some(BOTH_REPLIES),
            }),
            Deed::Holds(
                b"[\"doc\",\"d\",2,[[\"srv-1\",2]]]\n[\"doc\",\"e\",1,[[\"srv-1\",1]]]\n[\"epoch\",2]\n",
            ),
        ],
    },
];

#[test]
fn starts(rt: HostRuntime) {
    all_in_memory(&rt, rt.alloc(), &STARTS);
}

#[test]
fn starts_under_other_names(rt: HostRuntime) {
    all_in_memory(&rt, rt.alloc(), &OTHER_NAMES);
}

const FOLDER: &str = "jcrdt-starts-test";

const PATH: &str = "jcrdt-starts-test/copy.db";

// What is done with a file, which is closed and opened again between these.
static OPENED_AGAIN: [Case<'static>; 2] = [
    Case {
        name: "a file that is new",
        documents: &["d"],
        deeds: &[Deed::Serves(Start {
            server: "srv",
            sessions: &[THREE_WHOLE],
            status: 0,
            totals: b"[\"total\",\"d\",3,3,3]\n",
            replies: None,
        })],
    },
    Case {
        name: "the file opened again",
        documents: &["d"],
        deeds: &[
            Deed::Holds(b"[\"doc\",\"d\",3,[[\"srv-1\",3]]]\n[\"epoch\",1]\n"),
            Deed::Serves(Start {
                server: "srv",
                sessions: &[QUITS],
                status: 0,
                totals: b"[\"total\",\"d\",0,3,3]\n",
                replies: Some(b"[\"bye\"]\n"),
            }),
        ],
    },
];

fn is_done_in_file<R: Threads + Wait + Abort + Sync + Log + Clock>(
    host: &HostRuntime,
    rt: &R,
    case: &Case<'_>,
) -> bool {
    done_over(rt, host.alloc(), case, Connection::open(host, PATH)).is_ok()
}

#[test]
fn opened_again(rt: HostRuntime) -> Result<(), Fail> {
    let _ = fs::remove_dir_all(&rt, FOLDER);
    fs::create_dir(&rt, FOLDER)?;
    for case in &OPENED_AGAIN {
        holds(&rt, is_done_in_file(&rt, &rt, case), case.name);
    }
    fs::remove_dir_all(&rt, FOLDER)?;
    Ok(())
}
