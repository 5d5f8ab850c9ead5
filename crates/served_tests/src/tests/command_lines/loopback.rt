//! Sessions over loopback, with both ends in one process, from a log in memory.
use super::super::checks::{bytes_are, holds};
use super::super::places::new_list;
use super::super::serving::serve_all;
use super::super::two_sessions::{THREE, TOTALS, TWO, have_replies};
use log::Log;
use server_core::Pace;
use std::alloc::{AllocError, Global};
use std::io;
use std::io::Write;
use std::net::{Net, Shutdown, TcpListener, TcpStream};
use std::process::Abort;
use std::sync::Wait;
use std::test::Fail;
use std::thread::Threads;
use std::time::Clock;
use tcp_server::{Admission, Entrance, connections};

// What a server did: its status, what it wrote, and the replies to each client.
#[derive(Drop)]
struct Outcome {
    status: u8,
    out: Vec<u8>,
    replies: Vec<String>,
}

impl Outcome {
    // Whether the server ended well, and wrote this.
    fn has(&self, totals: &[u8]) -> bool {
        self.status == 0 && *self.out.as_slice() == *totals
    }

    // The replies to this client.
    fn reply(&self, client: usize) -> &str {
        match self.replies.get(client) {
            Some(reply) => reply.as_str(),
            None => "",
        }
    }
}

// A client that has sent all its lines.
fn client<R: Net<Listener = TcpListener, Stream = TcpStream>>(
    rt: &R,
    listener: &TcpListener,
    lines: &[u8],
) -> io::Result<TcpStream> {
    let mut stream = TcpStream::connect(rt, listener.local_addr()?)?;
    stream.write_all(lines)?;
    stream.shutdown(Shutdown::Write)?;
    Ok(stream)
}

// A client for each of these.
fn clients<R: Net<Listener = TcpListener, Stream = TcpStream>>(
    rt: &R,
    alloc: Global,
    listener: &TcpListener,
    sent: &[&[u8]],
) -> io::Result<Vec<TcpStream>> {
    let mut all = Vec::new(alloc);
    for lines in sent {
        all.push(client(rt, listener, lines)?)?;
    }
    Ok(all)
}

// The replies to each client.
fn replies(alloc: Global, clients: Vec<TcpStream>) -> io::Result<Vec<String>> {
    let mut all = Vec::new(alloc);
    for stream in clients {
        all.push(io::read_to_string(alloc, stream)?)?;
    }
    Ok(all)
}

// Serves so many connections over an empty log: the status, and what was written.
fn serve<R: Threads + Wait + Sync + Log + Clock>(
    rt: &R,
    alloc: Global,
    documents: &[&str],
    listener: &TcpListener,
    sessions: usize,
) -> Result<(u8, Vec<u8>), AllocError> {
    let Ok(sessions) = u16::try_from(sessions) else {
        return Ok((2, Vec::new(alloc)));
    };
    let admission = Admission {
        sessions,
        stays: false,
        patience: 30,
        drain: 10,
    };
    let entrance = Entrance::new(rt, listener, admission);
    let all = connections(alloc, &entrance, sessions)?;
    let pace = Pace::Behind(4096);
    let served = serve_all(rt, alloc, "srv", documents, pace, all, new_list(alloc));
    Ok((served.status, served.totals))
}

// What a server of these documents does, over an empty log and with a session for each client.
fn served<R: Net<Listener = TcpListener, Stream = TcpStream> + Threads + Wait + Sync + Log + Clock>(
    rt: &R,
    alloc: Global,
    documents: &[&str],
    sent: &[&[u8]],
) -> io::Result<Outcome> {
    let listener = TcpListener::bind(rt, "127.0.0.1:0")?;
    let clients = clients(rt, alloc, &listener, sent)?;
    let (status, out) = serve(rt, alloc, documents, &listener, sent.len())?;
    Ok(Outcome {
        status,
        out,
        replies: replies(alloc, clients)?,
    })
}

// The replies to two sessions at one document, of three assignments and of two.
fn two_have_replies<R: Abort>(rt: &R, outcome: &Outcome) {
    holds(rt, outcome.has(TOTALS), "the totals");
    have_replies(rt, outcome.reply(0), outcome.reply(1));
}

#[test]
fn two_sessions_over_loopback(rt: HostRuntime) -> Result<(), Fail> {
    two_have_replies(&rt, &served(&rt, rt.alloc(), &["d"], &[THREE, TWO])?);
    Ok(())
}

// What a client gets whose line is too long. Once the server has ended, and the client has read
// all, it sends one byte more, which a connection that was reset refuses.
fn served_too_long<
    R: Net<Listener = TcpListener, Stream = TcpStream> + Threads + Wait + Sync + Log + Clock,
>(rt: &R, alloc: Global) -> io::Result<Outcome> {
    let listener = TcpListener::bind(rt, "127.0.0.1:0")?;
    let mut stream = TcpStream::connect(rt, listener.local_addr()?)?;
    let line = vec![in alloc; b' '; 66_000]?;
    stream.write_all(line.as_slice())?;
    let (status, out) = serve(rt, alloc, &["d", "e"], &listener, 1)?;
    let reply = io::read_to_string(alloc, &stream)?;
    stream.write_all(b" ")?;
    Ok(Outcome {
        status,
        out,
        replies: vec![in alloc; reply]?,
    })
}

fn has_too_long_reply<R: Abort>(rt: &R, outcome: &Outcome) {
    let totals = b"[\"total\",\"d\",0,0,0]\n[\"total\",\"e\",0,0,0]\n";
    holds(rt, outcome.has(totals), "the totals");
    let reply = outcome.reply(0).as_bytes();
    bytes_are(
        rt,
        "line_too_long_has_its_reply",
        "replies",
        reply,
        b"[\"no\",3,\"line-too-long\"]\n",
    );
}

// A client whose line is too long, who has sent more than is read of it, and reads nothing until
// the server has ended, gets its reply, and then the end of the stream: its connection isn't reset.
#[test]
fn line_too_long_has_its_reply(rt: HostRuntime) -> Result<(), Fail> {
    has_too_long_reply(&rt, &served_too_long(&rt, rt.alloc())?);
    Ok(())
}
