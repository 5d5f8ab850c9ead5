//! How the stored log is, for who looks on.
use std::alloc::{AllocError, Global};
use std::sync::atomic::{AtomicBool, AtomicU64, Ordering};
use std::time::Clock;
use stored_log::StoredFault;

/// How the stored log of a server is, as its copier found it last. Any thread may look. No clause
/// says anything of it.
#[derive(Drop)]
pub struct FileState {
    // The number of the fault that isn't over; 0 for none.
    fault: AtomicU64,
    has_stopped: AtomicBool,
    lacks_memory: AtomicBool,
    faults: AtomicU64,
    batches: AtomicU64,
    // When the batch was begun that is being written, and when the last one was written; 0 for none.
    begun: AtomicU64,
    written: AtomicU64,
    // How long the last batch took.
    took: AtomicU64,
    // By document.
    replicas: Vec<AtomicU64>,
}

/// What was found at one look. Times are in milliseconds.
#[derive(Clone, Copy)]
pub struct FileReport {
    /// The fault that isn't over, if there is one.
    pub fault: Option<StoredFault>,
    /// Whether nothing is copied any more.
    pub has_stopped: bool,
    /// Whether the copier pauses since memory lacks.
    pub lacks_memory: bool,
    /// How many faults there were in this start.
    pub faults: u64,
    /// How many batches were written in this start.
    pub batches: u64,
    /// For how long a batch has been written by now, if one is.
    pub writing: Option<u64>,
    /// How long ago the last batch was written, if one was.
    pub written: Option<u64>,
}

// A number for each fault, from 1 on.
fn number_of(fault: StoredFault) -> u64 {
    match fault {
        StoredFault::DiskFull => 1,
        StoredFault::Io => 2,
        StoredFault::NoMemory => 3,
        StoredFault::Busy => 4,
        StoredFault::Damaged => 5,
        StoredFault::Moved => 6,
        StoredFault::Changed => 7,
        StoredFault::Refused => 8,
        StoredFault::Closed => 9,
        StoredFault::Other => 10,
    }
}

// The fault of a number; none for 0.
fn fault_of(number: u64) -> Option<StoredFault> {
    match number {
        0 => None,
        1 => Some(StoredFault::DiskFull),
        2 => Some(StoredFault::Io),
        3 => Some(StoredFault::NoMemory),
        4 => Some(StoredFault::Busy),
        5 => Some(StoredFault::Damaged),
        6 => Some(StoredFault::Moved),
        7 => Some(StoredFault::Changed),
        8 => Some(StoredFault::Refused),
        9 => Some(StoredFault::Closed),
        _ => Some(StoredFault::Other),
    }
}

// The milliseconds of a clock that never goes back, and never 0.
fn millis<R: Clock>(rt: &R) -> u64 {
    match rt.monotonic() {
        Ok(since) => u64::try_from(since.as_millis()).unwrap_or(u64::MAX).max(1),
        Err(_) => 1,
    }
}

// How long ago a time was; none for 0.
fn since(now: u64, then: u64) -> Option<u64> {
    if then == 0 {
        None
    } else {
        Some(now.saturating_sub(then))
    }
}

impl FileState {
    /// That of a stored log of so many documents, of which nothing is known yet.
    pub fn new(alloc: Global, documents: usize) -> Result<FileState, AllocError> {
        let mut replicas = Vec::with_capacity(alloc, documents)?;
        for _ in 0..documents {
            replicas.push(AtomicU64::new(0))?;
        }
        Ok(FileState {
            fault: AtomicU64::new(0),
            has_stopped: AtomicBool::new(false),
            lacks_memory: AtomicBool::new(false),
            faults: AtomicU64::new(0),
            batches: AtomicU64::new(0),
            begun: AtomicU64::new(0),
            written: AtomicU64::new(0),
            took: AtomicU64::new(0),
            replicas,
        })
    }

    /// What is known now.
    pub fn report<R: Clock>(&self, rt: &R) -> FileReport {
        let now = millis(rt);
        FileReport {
            fault: fault_of(self.fault.load(Ordering::SeqCst)),
            has_stopped: self.has_stopped.load(Ordering::SeqCst),
            lacks_memory: self.lacks_memory.load(Ordering::SeqCst),
            faults: self.faults.load(Ordering::SeqCst),
            batches: self.batches.load(Ordering::SeqCst),
            writing: since(now, self.begun.load(Ordering::SeqCst)),
            written: since(now, self.written.load(Ordering::SeqCst)),
        }
    }

    /// How many replicas made the operations of the document at this place that are stored.
    pub fn replicas(&self, document: usize) -> u64 {
        match self.replicas.get(document) {
            Some(count) => count.load(Ordering::SeqCst),
            None => 0,
        }
    }

    // Notes how many replicas made the stored operations of the document at this place.
    pub(crate) fn note_replicas(&self, document: usize, count: usize) {
        if let Some(kept) = self.replicas.get(document) {
            kept.store(count as u64, Ordering::SeqCst);
        }
    }

    // A batch is going to be written.
    pub(crate) fn begin<R: Clock>(&self, rt: &R) {
        self.begun.store(millis(rt), Ordering::SeqCst);
    }

    // A batch was written.
    pub(crate) fn end<R: Clock>(&self, rt: &R) {
        let now = millis(rt);
        let began = self.begun.load(Ordering::SeqCst);
        self.took.store(now.saturating_sub(began), Ordering::SeqCst);
        self.begun.store(0, Ordering::SeqCst);
        self.written.store(now, Ordering::SeqCst);
        self.batches.fetch_add(1, Ordering::SeqCst);
    }

    // How many milliseconds the last batch took; 0 where there was none.
    pub(crate) fn took(&self) -> u64 {
        self.took.load(Ordering::SeqCst)
    }

    // The store failed, and is opened again.
    pub(crate) fn fail(&self, why: StoredFault) {
        self.begun.store(0, Ordering::SeqCst);
        self.fault.store(number_of(why), Ordering::SeqCst);
        self.faults.fetch_add(1, Ordering::SeqCst);
    }

    // The store was opened again.
    pub(crate) fn recover(&self) {
        self.fault.store(0, Ordering::SeqCst);
    }

    // Nothing is copied any more.
    pub(crate) fn stop(&self, why: StoredFault) {
        self.begun.store(0, Ordering::SeqCst);
        self.fault.store(number_of(why), Ordering::SeqCst);
        self.has_stopped.store(true, Ordering::SeqCst);
    }

    // Whether the copier pauses since memory lacks.
    pub(crate) fn note_lack(&self, lacks: bool) {
        self.begun.store(0, Ordering::SeqCst);
        self.lacks_memory.store(lacks, Ordering::SeqCst);
    }
}
