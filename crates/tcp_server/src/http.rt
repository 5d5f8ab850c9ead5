//! Pages for monitors, over HTTP. They take no session.
ghost use Rattle.std.specs.Prelude.{◌≤◌, IfSome, length};

use crate::waiting::shut_down;
use std::alloc::{AllocError, Global};
use std::fmt::Write as _;
use std::io::{Read, Write};
use std::net::{Shutdown, TcpListener, TcpStream};
use std::os::fd::AsRawFd;
use std::sync::Wait;
use std::sync::atomic::{AtomicBool, Ordering};
use std::time::{Clock, Duration};
use std::{io, thread};

// How long a request may take, in milliseconds: others wait for it.
const MOST_MILLIS: u64 = 1000;

// How many bytes of a request are read at most.
const MOST_BYTES: usize = 4096;

// How many milliseconds no connection is accepted after one that failed.
const PAUSE_MILLIS: u64 = 100;

/// What is answered to a request.
#[derive(Drop)]
pub struct Page {
    /// The status and its words, as `200 OK`.
    pub status: &'static str,
    /// The type of the text, as `text/plain`.
    pub content_type: &'static str,
    /// The text.
    pub text: String,
}

/// The pages that there are.
pub trait Pages {
    /// The page at a path; none where there is none.
    fn page(&self, path: &str) -> Result<Option<Page>, AllocError>;
}

/// Listens for monitors.
#[derive(Drop)]
pub struct HttpListener {
    listener: TcpListener,
    has_ended: AtomicBool,
}

// What a request asks for.
enum Asked<'a> {
    // The page at this path; without its text where that isn't wanted.
    Page { path: &'a str, is_whole: bool },
    // Something else than a page.
    Other,
}

// Whether a request's head is whole: an empty line ends it.
fn is_whole(request: &[u8]) -> bool {
    request
        .windows(4)
        .any(|four: &[u8]| four == b"\r\n\r\n".as_slice())
}

// The path of a target, without what stands behind a question mark.
fn path_of(target: &str) -> &str {
    match target.split_once('?') {
        Some((path, _)) => path,
        None => target,
    }
}

// What the first line of a request asks for. None where it is no request.
fn asked_of(request: &[u8]) -> Option<Asked<'_>> {
    let text = str::from_utf8(request).ok()?;
    let (line, _) = text.split_once("\r\n")?;
    let (method, rest) = line.split_once(' ')?;
    let (target, _) = rest.split_once(' ')?;
    let path = path_of(target);
    Some(match method {
        "GET" => Asked::Page {
            path,
            is_whole: true,
        },
        "HEAD" => Asked::Page {
            path,
            is_whole: false,
        },
        _ => Asked::Other,
    })
}

// The milliseconds of a clock that never goes back; 0 where it can't be read.
fn millis<R: Clock>(rt: &R) -> u64 {
    match rt.monotonic() {
        Ok(since) => u64::try_from(since.as_millis()).unwrap_or(u64::MAX),
        Err(_) => 0,
    }
}

// Reads the head of a request into these bytes, and returns how many they are. None where it isn't
// whole in time, or is too long.
fn read_request<R: Clock + Wait>(rt: &R, mut stream: &TcpStream, bytes: &mut [u8]) -> Option<usize>
    ensures { IfSome result (λ count. count ≤ length bytes.new) }
{
    let until = millis(rt).saturating_add(MOST_MILLIS);
    let mut count: usize = 0;
    for _ in rt.forever() {
        let left = until.saturating_sub(millis(rt));
        if left == 0 || count >= bytes.len() {
            return None;
        }
        let _ = stream.set_read_timeout(Some(Duration::from_millis(left)));
        match stream.read(&mut bytes[count..]) {
            Ok(more) if more > 0 => count += more,
            _ => return None,
        }
        if is_whole(&bytes[..count]) {
            return Some(count);
        }
    }
    None
}

// Writes a page, or its head alone.
fn write_page(
    alloc: Global,
    mut stream: &TcpStream,
    page: &Page,
    is_whole: bool,
) -> io::Result<()> {
    let (status, content_type, length) = (page.status, page.content_type, page.text.len());
    let head = format!(in alloc;
        "HTTP/1.1 {status}\r\nContent-Type: {content_type}\r\nContent-Length: {length}\r\nCache-Control: no-store\r\nConnection: close\r\n\r\n"
    )?;
    stream.write_all(head.as_bytes())?;
    if is_whole {
        stream.write_all(page.text.as_bytes())?;
    }
    stream.flush()
}

// A page of words alone.
fn plain_page(alloc: Global, status: &'static str, words: &str) -> Result<Page, AllocError> {
    Ok(Page {
        status,
        content_type: "text/plain; charset=utf-8",
        text: String::from_str(alloc, words)?,
    })
}

// Answers one request.
fn answer<R: Clock + Wait, P: Pages>(
    rt: &R,
    alloc: Global,
    stream: &TcpStream,
    pages: &P,
) -> io::Result<()> {
    let mut bytes = [0; MOST_BYTES];
    let Some(count) = read_request(rt, stream, &mut bytes) else {
        return Ok(());
    };
    stream.set_write_timeout(Some(Duration::from_millis(MOST_MILLIS)))?;
    match asked_of(&bytes[..count]) {
        Some(Asked::Page { path, is_whole }) => {
            let page = match pages.page(path)? {
                Some(page) => page,
                None => plain_page(alloc, "404 Not Found", "there is /health and /metrics\n")?,
            };
            write_page(alloc, stream, &page, is_whole)
        }
        Some(Asked::Other) => {
            let page = plain_page(alloc, "405 Method Not Allowed", "GET alone is answered\n")?;
            write_page(alloc, stream, &page, true)
        }
        None => {
            let page = plain_page(alloc, "400 Bad Request", "no request of HTTP\n")?;
            write_page(alloc, stream, &page, true)
        }
    }
}

impl HttpListener {
    /// Answers over this listener.
    pub(crate) fn new(listener: TcpListener) -> HttpListener {
        HttpListener {
            listener,
            has_ended: AtomicBool::new(false),
        }
    }

    /// Answers requests, one after another, each within a second or two, until `end` was called. A
    /// client that fails, and a lack of memory, end that one answer alone.
    pub fn serve<R: Clock + Wait, P: Pages>(&self, rt: &R, alloc: Global, pages: &P) {
        for _ in rt.forever() {
            if self.has_ended.load(Ordering::SeqCst) {
                return;
            }
            match self.listener.accept() {
                Ok((stream, _)) => {
                    let _ = answer(rt, alloc, &stream, pages);
                    let _ = stream.shutdown(Shutdown::Write);
                }
                Err(_) => if !self.has_ended.load(Ordering::SeqCst) {
                    thread::sleep(rt, Duration::from_millis(PAUSE_MILLIS));
                },
            }
        }
    }

    /// Ends `serve`, which may be called later, too.
    pub fn end(&self) {
        self.has_ended.store(true, Ordering::SeqCst);
        shut_down(self.listener.as_raw_fd());
    }
}
