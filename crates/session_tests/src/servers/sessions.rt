//! Sessions at one document: their replies, and what they did, added up.
ghost use Rattle.std.specs.Prelude.{◌≡◌};
ghost use Rattle.share_ledger.specs.Begun.{BeginEmpty};

use super::samples::{NO_FAULT, Served, THREE, TWO, first_did, run_two, serve_all, serve_beside};
use crate::checks::holds;
use json_scalar::Refusal;
use server_core::doubles::Script;
use server_core::{OpenGate, SharedDocuments, Side, Signalled};
use session_rules::Ending;
use share_ledger::{Blank, Marker};
use std::alloc::{AllocError, Global};
use std::marker::Brand;
use std::process::Abort;
use std::str;
use std::sync::{Mutex, Wait};
use std::thread::Threads;

const THREE_REPLIES: &[u8] = br#"["opened",_]
["applied",1,0,[_,"srv-1"]]
["applied",1,0,[_,"srv-1"]]
["applied",1,0,[_,"srv-1"]]
["values",[3]]
"#;

const TWO_REPLIES: &[u8] = br#"["opened",_]
["applied",1,0,[_,"srv-1"]]
["applied",1,0,[_,"srv-1"]]
["values",[2]]
"#;

// The bytes of the replies where the text has `_`, if the others are those of the text.
fn filled<const N: usize>(text: &[u8], replies: &[u8]) -> Option<[u8; N]> {
    let mut found = [0; N];
    let mut count: usize = 0;
    if replies.len() != text.len() {
        return None;
    }
    for (due, byte) in text.iter().zip(replies.iter()) {
        if *due == b'_' {
            *found.get_mut(count)? = *byte;
            count = count.saturating_add(1);
        } else if *due != *byte {
            return None;
        }
    }
    Some(found)
}

// Whether the counters rise in either session, and together are those from 1 to 5.
fn rise_together(first: [u8; 3], second: [u8; 2]) -> bool {
    let mut all = [first[0], first[1], first[2], second[0], second[1]];
    all.sort_unstable();
    first.iter().is_sorted() && second.iter().is_sorted() && all == *b"12345"
}

// What each seat did, if both sessions have their own replies, line for line, whichever was first.
fn shares(first: &[u8], second: &[u8]) -> Option<[u64; 2]> {
    let one: [u8; 4] = filled(THREE_REPLIES, first)?;
    let two: [u8; 3] = filled(TWO_REPLIES, second)?;
    if !rise_together([one[1], one[2], one[3]], [two[1], two[2]]) {
        return None;
    }
    match (one[0], two[0]) {
        (b'1', b'2') => Some([3, 2]),
        (b'2', b'1') => Some([2, 3]),
        _ => None,
    }
}

/// Two sessions at one document each have their own replies, and add up.
pub fn two_sessions<R: Threads + Wait + Abort + Sync>(
    rt: &R,
    alloc: Global,
) -> Result<(), Refusal> {
    let ran = run_two(rt, alloc, &OpenGate, [THREE, TWO], NO_FAULT)?;
    let (first, second) = (ran.first.as_slice(), ran.second.as_slice());
    match shares(first, second) {
        Some(shares) => first_did(rt, "two_sessions", &ran.gathered, 5, &shares),
        None => panic!(rt;
            "replies {:?} and {:?}",
            str::from_utf8(first),
            str::from_utf8(second)
        ),
    }
    Ok(())
}

// 66 sessions of the same lines.
fn many<'a, R: Wait>(
    rt: &'a R,
    alloc: Global,
    replies: &'a Mutex<Vec<u8>>,
) -> Result<Vec<Script<'a, R>>, AllocError> {
    let mut scripts = Vec::new(alloc);
    for _ in 0..66u8 {
        scripts.push(Script::new(rt, THREE, replies))?;
    }
    Ok(scripts)
}

// 66 sessions of the same lines, one after another on three threads.
fn lines<'a, R: Wait>(
    rt: &'a R,
    alloc: Global,
    replies: &'a Mutex<Vec<u8>>,
) -> Result<Vec<Script<'a, R>>, AllocError> {
    let mut scripts = Vec::new(alloc);
    for _ in 0..3u8 {
        let mut script = Script::new(rt, THREE, replies);
        script.again = 21;
        scripts.push(script)?;
    }
    Ok(scripts)
}

/// They add up at one document: on threads of their own, and one after another on three threads,
/// where each has a seat of its own.
pub fn many_sessions<R: Threads + Wait + Abort + Sync>(
    rt: &R,
    alloc: Global,
) -> Result<(), Refusal> {
    let replies = Mutex::new(Vec::new(alloc));
    let scripts = many(rt, alloc, &replies)?;
    let gathered = serve_all(rt, alloc, &["a", "b"], 66, scripts, &OpenGate)?;
    first_did(rt, "many_sessions", &gathered, 198, &[3; 66]);
    let scripts = lines(rt, alloc, &replies)?;
    let gathered = serve_all(rt, alloc, &["a", "b"], 66, scripts, &OpenGate)?;
    first_did(rt, "many_sessions, in lines", &gathered, 198, &[3; 66]);
    let are = gathered
        .endings
        .iter()
        .all(|line: &Vec<Option<Ending>>| line.len() == 22);
    holds(
        rt,
        are && gathered.endings.len() == 3,
        "22 sessions on each thread",
    );
    Ok(())
}

// Waits until all sessions have ended, and then looks how much is logged at the first document.
#[derive(Drop)]
struct Watching {
    sessions: u64,
    ended: u64,
    logged: Option<usize>,
}

impl<M: Marker> Side<M> for Watching {
    fn run<R: Wait>(&mut self, rt: &R, shared: &SharedDocuments<M>, sessions: u64) {
        let mut seen = Signalled {
            notified: 0,
            ended: 0,
        };
        for _ in rt.forever() {
            if seen.ended >= sessions {
                break;
            }
            seen = shared.signal.wait(rt, seen);
        }
        self.sessions = sessions;
        self.ended = seen.ended;
        self.logged = logged_first(rt, shared);
    }
}

/// How much is logged at the first document, of which at most 1,000 operations are looked at.
pub fn logged_first<M: Marker, R: Wait>(rt: &R, shared: &SharedDocuments<M>) -> Option<usize> {
    if shared.shelf.len() == 0 {
        return None;
    }
    let doc = shared.shelf.doc(0).lock(rt);
    doc.tail(0, 1000).ok().map(|ops| ops.as_slice().len())
}

// What they did, and the side, which is returned.
fn watched<M: Marker + Send + Sync, R: Threads + Wait + Sync>(
    rt: &R,
    alloc: Global,
    blank: Blank,
) -> Result<(Served, Watching), Refusal>
    requires blank { blank ≡ M.name }
    requires begun { BeginEmpty M.origin }
{
    let begins = Watching {
        sessions: 0,
        ended: 0,
        logged: None,
    };
    let documents = &["a", "b"];
    let replies = Mutex::new(Vec::new(alloc));
    let scripts = many(rt, alloc, &replies)?;
    serve_beside::<M, _, _, _>(rt, alloc, blank, documents, 66, scripts, &OpenGate, begins)
}

/// The side sees that all have ended, and what they did.
pub fn side_sees_all_end<R: Threads + Wait + Abort + Sync>(
    rt: &R,
    alloc: Global,
) -> Result<(), Refusal> {
    let (gathered, side) = watched::<Brand, R>(rt, alloc, Blank::new())?;
    first_did(rt, "side_sees_all_end", &gathered, 198, &[3; 66]);
    let seen = (side.sessions, side.ended, side.logged);
    holds(rt, seen == (66, 66, Some(198)), "side_sees_all_end");
    Ok(())
}
