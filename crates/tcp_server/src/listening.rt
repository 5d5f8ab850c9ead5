//! Where a server listens.
ghost use Rattle.std.specs.Prelude.{◌≡◌, ◌≢◌, [], IfSome, OnOk};
ghost use Rattle.std.specs.IoError.{error_kind};
ghost use Rattle.tcp_server.specs.Listening.{WritesAddress, hint};

use crate::http::HttpListener;
use crate::waiting::drain_at_end_of_input;
use log::Log;
use server_notes::{Plain, note_listening};
use std::alloc::Global;
use std::io::ErrorKind;
use std::net::{Net, SocketAddr, TcpListener, TcpStream};
use std::os::fd::AsRawFd;
use std::thread::Threads;
use std::time::Clock;
use std::{io, thread};

// Writes where the server listens.
fn write_address<W: io::Write>(alloc: Global, address: SocketAddr, out: &mut W) -> io::Result<()>
    ensures { OnOk result (WritesAddress (W.contents out.old) (W.contents out.new)) }
{
    let line = format!(in alloc; "[\"listening\",\"{address}\"]\n")?;
    out.write_all(line.as_bytes())?;
    out.flush()
}

/// What an address should be, where the error is that it is none; else an empty text.
pub fn hint_of(error: &io::Error) -> &'static str
    ensures hinted { error_kind error.now ≡ ErrorKind.InvalidInput → result.now ≡ hint }
    ensures nothing { error_kind error.now ≢ ErrorKind.InvalidInput → result.now ≡ [] }
{
    match error.kind() {
        ErrorKind::InvalidInput => "; HOST:PORT is wanted, as 127.0.0.1:7001 or [::1]:7001",
        _ => "",
    }
}

// Reports on standard error why the address can't be listened at. An error there changes nothing.
fn report_bind_error<R: Eprint>(rt: &R, address: &str, error: &io::Error) {
    let hint = hint_of(error);
    let address = Plain(address);
    let _ = rt.eprintln(format_args!("jcrdt: cannot listen at {address}: {error}{hint}"));
}

// Reports on standard error why the address could not be written.
fn report_write_error<R: Eprint>(rt: &R, error: &io::Error) {
    let _ = match error.kind() {
        ErrorKind::OutOfMemory => rt.eprintln("jcrdt: out of memory while the address was written"),
        _ => rt.eprintln(format_args!("jcrdt: standard output failed: {error}")),
    };
}

// A listener at the address, and where it listens. Standard error says why there is none.
fn bind<N: Net<Listener = TcpListener, Stream = TcpStream>, R: Eprint>(
    net: &N,
    rt: &R,
    address: &str,
) -> Option<(TcpListener, SocketAddr)> {
    match TcpListener::bind(net, address) {
        Ok(listener) => match listener.local_addr() {
            Ok(at) => Some((listener, at)),
            Err(error) => {
                report_bind_error(rt, address, &error);
                None
            }
        },
        Err(error) => {
            report_bind_error(rt, address, &error);
            None
        }
    }
}

/// Listens at the address, and writes where. None where it can't be listened at, where the writer
/// fails, or where memory runs out; standard error says why. No clause can say that it listens at
/// this address. `net` is the host itself: one with notes of its own looks no name up.
pub fn listen<
    N: Net<Listener = TcpListener, Stream = TcpStream>,
    R: Eprint + Log + Clock,
    W: io::Write,
>(net: &N, rt: &R, alloc: Global, address: &str, out: &mut W) -> Option<TcpListener>
    ensures { IfSome result (λ listener. WritesAddress (W.contents out.old) (W.contents out.new)) }
{
    let (listener, at) = bind(net, rt, address)?;
    match write_address(alloc, at, out) {
        Ok(()) => {
            note_listening(rt, &at);
            Some(listener)
        }
        Err(error) => {
            report_write_error(rt, &error);
            None
        }
    }
}

/// Listens for monitors at the address. None where it can't be listened at; standard error says why.
pub fn listen_for_monitors<
    N: Net<Listener = TcpListener, Stream = TcpStream>,
    R: Eprint + Log + Clock,
>(net: &N, rt: &R, address: &str) -> Option<HttpListener> {
    let (listener, at) = bind(net, rt, address)?;
    note_listening(rt, &format_args!("http://{at}/health for monitors"));
    Some(HttpListener::new(listener))
}

/// From now on the server drains once its standard input ends: the listener is shut down. A thread
/// of its own waits for that; where it can't be started standard error says so.
pub fn drain_when_input_ends<R: Threads + Eprint>(rt: &R, listener: &TcpListener) {
    let descriptor = listener.as_raw_fd();
    if thread::spawn(rt, move || drain_at_end_of_input(descriptor)).is_err() {
        let _ = rt.eprintln("jcrdt: no thread waits for the end of standard input");
    }
}
