//! What a server needs of its host.
use served_log::Host;
use std::net::{Net, TcpListener, TcpStream};

/// A host that the program's server can run on: TCP and standard error, beside what a `Host` has.
pub trait ServerHost: Net<Listener = TcpListener, Stream = TcpStream> + Eprint + Host {}

impl<R: Net<Listener = TcpListener, Stream = TcpStream> + Eprint + Host> ServerHost for R {}
