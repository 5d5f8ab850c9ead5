//! What a server over a stored log needs of its host.
use log::Log;
use std::sync::Wait;
use std::thread::Threads;
use std::time::Clock;

/// A host that a server over a stored log can run on: threads, waiting, notes, and a clock.
pub trait Host: Threads + Wait + Sync + Log + Clock {}

impl<R: Threads + Wait + Sync + Log + Clock> Host for R {}
