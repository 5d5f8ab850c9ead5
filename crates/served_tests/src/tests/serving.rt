//! A server over a stored log. It is called in a function that promises nothing, so that the proof
//! of a test carries none of its clauses.
use super::checks::{bytes_are, counts};
use super::places::left_of;
use log::Log;
use served_log::{Ended, FileState, Serving, serve_over};
use server_core::doubles::Script;
use server_core::{Connect, OpenGate, Pace};
use std::alloc::{AllocError, Global};
use std::process::Abort;
use std::sync::{Mutex, Wait};
use std::thread::Threads;
use std::time::Clock;
use stored_log::StoredLog;

/// A session: what it is sent, and after how many bytes its source fails.
#[derive(Clone, Copy)]
pub struct Session<'a> {
    pub input: &'a [u8],
    pub read_after: usize,
}

pub const THREE: &[u8] = br#"["open","d"]
["assign","d",[0,"a"],1]
["assign","d",[0,"a"],2]
["assign","d",[0,"a"],3]
"#;

/// A session of three lines whose source never fails.
pub const THREE_WHOLE: Session<'static> = Session {
    input: THREE,
    read_after: usize::MAX,
};

/// One of a line, whose source never fails.
pub const QUITS: Session<'static> = Session {
    input: b"[\"quit\"]\n",
    read_after: usize::MAX,
};

/// One of two lines.
pub const TWO_WHOLE: Session<'static> = Session {
    input: br#"["open","d"]
["assign","d",[0,"b"],1]
["assign","d",[0,"b"],2]
"#,
    read_after: usize::MAX,
};

/// A start of a server: its sessions, and its expected results.
#[derive(Clone, Copy)]
pub struct Start<'a> {
    pub server: &'a str,
    pub sessions: &'a [Session<'a>],
    pub status: u8,
    /// The lines of the totals.
    pub totals: &'a [u8],
    /// The replies to the sessions, if these are compared.
    pub replies: Option<&'a [u8]>,
}

/// What a server did: its status, what it wrote, and what is left of its log.
#[derive(Drop)]
pub struct Served<T> {
    pub status: u8,
    pub totals: Vec<u8>,
    pub left: T,
}

/// What a start did: the server, and the replies to its sessions.
#[derive(Drop)]
pub struct Done<T> {
    pub served: Served<T>,
    pub replies: Vec<u8>,
}

// Connections of these sessions, whose replies go there.
fn scripts_of<'a, R: Wait>(
    rt: &'a R,
    alloc: Global,
    sessions: &[Session<'a>],
    replies: &'a Mutex<Vec<u8>>,
) -> Result<Vec<Script<'a, R>>, AllocError> {
    let mut scripts = Vec::new(alloc);
    for session in sessions {
        scripts.push(Script {
            rt,
            input: session.input,
            replies,
            read_after: session.read_after,
            write_after: usize::MAX,
            opens: true,
            again: 0,
        })?;
    }
    Ok(scripts)
}

/// Serves these connections as the program does, by the server of this name, over at most 16
/// documents.
pub fn serve_all<R: Threads + Wait + Sync + Log + Clock, C: Connect, L: StoredLog>(
    rt: &R,
    alloc: Global,
    name: &str,
    documents: &[&str],
    pace: Pace,
    connections: Vec<C>,
    log: L,
) -> Served<L::Left> {
    let mut totals = Vec::new(alloc);
    if documents.len() > 16 {
        return Served {
            status: 2,
            totals,
            left: left_of(log.close()),
        };
    }
    let Ok(file) = FileState::new(alloc, documents.len()) else {
        return Served {
            status: 1,
            totals,
            left: left_of(log.close()),
        };
    };
    let serving = Serving {
        name,
        documents,
        pace,
        seats: connections.len().min(usize::from(u16::MAX)) as u16,
        connections,
        gate: &OpenGate,
        file: &file,
    };
    let (status, ended) = serve_over(rt, alloc, serving, log, &mut totals);
    let Ended {
        served: _,
        closed: _,
        has_failed: _,
        store,
    } = ended;
    Served {
        status,
        totals,
        left: store,
    }
}

/// Serves the sessions of a start.
pub fn serve_start<R: Threads + Wait + Sync + Log + Clock, L: StoredLog>(
    rt: &R,
    alloc: Global,
    documents: &[&str],
    start: &Start<'_>,
    pace: Pace,
    log: L,
) -> Result<Done<L::Left>, AllocError> {
    let replies = Mutex::new(Vec::new(alloc));
    let scripts = scripts_of(rt, alloc, start.sessions, &replies)?;
    let served = serve_all(rt, alloc, start.server, documents, pace, scripts, log);
    Ok(Done {
        served,
        replies: replies.into_inner(),
    })
}

// The server did what was due at this start.
fn did<R: Abort>(rt: &R, case: &str, status: u8, totals: &[u8], replies: &[u8], start: &Start<'_>) {
    bytes_are(rt, case, "totals", totals, start.totals);
    counts(
        rt,
        case,
        "status",
        u64::from(status),
        u64::from(start.status),
    );
    if let Some(due) = start.replies {
        bytes_are(rt, case, "replies", replies, due);
    }
}

/// Starts a server of this pace over the stored log, which does what is expected, and gives what it
/// leaves.
pub fn started_at<R: Threads + Wait + Abort + Sync + Log + Clock, L: StoredLog>(
    rt: &R,
    alloc: Global,
    case: &str,
    documents: &[&str],
    start: &Start<'_>,
    pace: Pace,
    log: L,
) -> Result<L::Left, AllocError> {
    let Done { served, replies } = serve_start(rt, alloc, documents, start, pace, log)?;
    let Served {
        status,
        totals,
        left,
    } = served;
    did(
        rt,
        case,
        status,
        totals.as_slice(),
        replies.as_slice(),
        start,
    );
    Ok(left)
}

/// Serves from a log with replies at once, and gives what is left of the log.
pub fn started<R: Threads + Wait + Abort + Sync + Log + Clock, L: StoredLog>(
    rt: &R,
    alloc: Global,
    case: &str,
    documents: &[&str],
    start: &Start<'_>,
    log: L,
) -> Result<L::Left, AllocError> {
    started_at(rt, alloc, case, documents, start, Pace::Behind(4096), log)
}
