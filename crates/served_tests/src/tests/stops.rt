//! Disks that stop while a server runs or a copier copies.
use super::checks::holds;
use super::deeds::{Case, Deed};
use super::disks::new_files;
use super::files::done_around_a_crash;
use super::serving::{Start, THREE_WHOLE};
use log::Log;
use std::alloc::{AllocError, Global};
use std::process::Abort;
use std::sync::Wait;
use std::thread::Threads;
use std::time::Clock;

// What is done with a stored log whose disk stops after so many calls, and
// with what it leaves in the files.
struct Stop {
    calls: u64,
    case: Case<'static>,
    after: &'static [Deed<'static>],
}

const THREE_REPLIES: &[u8] = br#"["opened",1]
["applied",1,0,[1,"srv-1"]]
["applied",1,0,[2,"srv-1"]]
["applied",1,0,[3,"srv-1"]]
"#;

static STOPS: [Stop; 5] = [
    // The start takes 45 calls with its fold, and the first batch ten or so more.
    Stop {
        calls: 47,
        case: Case {
            name: "disk_that_stops_while_serving",
            documents: &["d"],
            deeds: &[Deed::Serves(Start {
                server: "srv",
                sessions: &[THREE_WHOLE],
                status: 1,
                totals: b"[\"total\",\"d\",3,3,0]\n",
                replies: Some(THREE_REPLIES),
            })],
        },
        after: &[Deed::Holds(b"[\"epoch\",1]\n")],
    },
    Stop {
        calls: u64::MAX,
        case: Case {
            name: "disk_that_never_stops",
            documents: &["d"],
            deeds: &[Deed::Serves(Start {
                server: "srv",
                sessions: &[THREE_WHOLE],
                status: 0,
                totals: b"[\"total\",\"d\",3,3,3]\n",
                replies: Some(THREE_REPLIES),
            })],
        },
        after: &[Deed::Holds(b"[\"doc\",\"d\",3,[[\"srv-1\",3]]]\n[\"epoch\",1]\n")],
    },
    // What isn't in the file is not answered, and nothing behind it.
    Stop {
        calls: 47,
        case: Case {
            name: "disk_that_stops_while_serving_durably",
            documents: &["d"],
            deeds: &[Deed::ServesDurably(Start {
                server: "srv",
                sessions: &[THREE_WHOLE],
                status: 1,
                totals: b"[\"total\",\"d\",3,3,0]\n",
                replies: Some(b""),
            })],
        },
        after: &[Deed::Holds(b"[\"epoch\",1]\n")],
    },
    Stop {
        calls: u64::MAX,
        case: Case {
            name: "disk_that_never_stops_serving_durably",
            documents: &["d"],
            deeds: &[Deed::ServesDurably(Start {
                server: "srv",
                sessions: &[THREE_WHOLE],
                status: 0,
                totals: b"[\"total\",\"d\",3,3,3]\n",
                replies: Some(THREE_REPLIES),
            })],
        },
        after: &[Deed::Holds(b"[\"doc\",\"d\",3,[[\"srv-1\",3]]]\n[\"epoch\",1]\n")],
    },
    // To adopt new files takes 20 calls, and the first batch ten or so more.
    Stop {
        calls: 24,
        case: Case {
            name: "fault_is_reported_while_a_session_runs",
            documents: &["d"],
            deeds: &[Deed::Copies(1, 1)],
        },
        after: &[Deed::Holds(b"[\"epoch\",0]\n")],
    },
];

fn ends<R: Threads + Wait + Abort + Sync + Log + Clock>(
    rt: &R,
    alloc: Global,
    stop: &Stop,
) -> Result<(), AllocError> {
    let files = new_files(alloc, stop.calls, u64::MAX);
    done_around_a_crash(rt, alloc, &stop.case, stop.after, files)
}

#[test]
fn disks_that_stop(rt: HostRuntime) {
    for stop in &STOPS {
        holds(&rt, ends(&rt, rt.alloc(), stop).is_ok(), stop.case.name);
    }
}
