//! What monitors are told: whether the server is well, and its figures.
use log::Log;
use op_log::{MAX_OPERATIONS, MAX_REPLICAS};
use served_log::{FileReport, FileState};
use server_core::{Gate, SharedDocuments, lock_document};
use share_ledger::Marker;
use std::alloc::{AllocError, Global};
use std::fmt;
use std::fmt::Write;
use std::sync::Wait;
use std::time::Clock;
use tcp_server::{Entrance, HttpListener, Page, Pages, SessionCount};

// From how many milliseconds on a write to the file is too slow for a server that is well.
const SLOW_MILLIS: u64 = 10_000;

/// What monitors may ask a server, beside its sessions.
#[derive(Drop)]
pub(crate) struct Inspection<'a, R> {
    pub(crate) rt: &'a R,
    pub(crate) alloc: Global,
    // Where they ask; none where they may not.
    pub(crate) listener: Option<HttpListener>,
    pub(crate) entrance: &'a Entrance<'a, R>,
    pub(crate) file: &'a FileState,
}

impl<R: Log + Clock + Wait> Gate for Inspection<'_, R> {
    fn before(&self, _session: u64, _line: u32) {}

    fn inside(&self, _session: u64, _document: usize) {}

    fn watches(&self) -> bool {
        self.listener.is_some()
    }

    fn watch<M: Marker, W: Wait>(&self, rt: &W, shared: &SharedDocuments<M>) {
        if let Some(listener) = &self.listener {
            let pages = ServerPages {
                inspection: self,
                rt,
                shared,
            };
            listener.serve(self.rt, self.alloc, &pages);
        }
    }

    fn unwatch(&self) {
        if let Some(listener) = &self.listener {
            listener.end();
        }
    }
}

// The pages of a server whose sessions run.
#[derive(Drop)]
struct ServerPages<'a, R, M: Marker, W> {
    inspection: &'a Inspection<'a, R>,
    // Waits for locks.
    rt: &'a W,
    shared: &'a SharedDocuments<M>,
}

// Counts of a document.
#[derive(Clone, Copy)]
struct DocumentCount<'a> {
    name: &'a str,
    logged: u64,
    stored: u64,
    replicas: u64,
}

impl DocumentCount<'_> {
    // How many of its operations aren't stored.
    fn lag(&self) -> u64 {
        self.logged.saturating_sub(self.stored)
    }

    // Whether it takes no more operations, or none of another replica.
    fn is_full(&self) -> bool {
        self.logged >= MAX_OPERATIONS as u64 || self.replicas >= MAX_REPLICAS as u64
    }
}

// Writes why the server isn't well, if it isn't.
fn write_cause<W: Write>(file: &FileReport, sessions: &SessionCount, out: &mut W) -> fmt::Result {
    if let Some(why) = file.fault {
        let next = if file.has_stopped {
            "nothing is stored any more"
        } else {
            "it is opened again"
        };
        return write!(out, "the file failed: {why}; {next}");
    }
    if file.lacks_memory {
        return out.write_str("memory lacks for what is to be stored");
    }
    match file.writing {
        Some(millis) if millis >= SLOW_MILLIS => {
            let seconds = millis / 1000;
            write!(out, "a write to the file has taken {seconds} s so far")
        }
        _ => if sessions.drains {
            out.write_str("the server drains")
        } else {
            Ok(())
        },
    }
}

// One figure, in the text format of Prometheus.
#[derive(Drop)]
struct Figure<'a> {
    name: &'a str,
    kind: &'a str,
    help: &'a str,
    value: u64,
}

impl Figure<'_> {
    fn write<W: Write>(&self, out: &mut W) -> fmt::Result {
        let (name, kind, help, value) = (self.name, self.kind, self.help, self.value);
        write!(
            out,
            "# HELP jcrdt_server_{name} {help}\n# TYPE jcrdt_server_{name} {kind}\njcrdt_server_{name} {value}\n"
        )
    }
}

// What is now so.
fn gauge<'a>(name: &'a str, help: &'a str, value: u64) -> Figure<'a> {
    Figure {
        name,
        kind: "gauge",
        help,
        value,
    }
}

// What only grows, until the next start.
fn counter<'a>(name: &'a str, help: &'a str, value: u64) -> Figure<'a> {
    Figure {
        name,
        kind: "counter",
        help,
        value,
    }
}

// Writes how the sessions are.
fn write_sessions<W: Write>(sessions: &SessionCount, out: &mut W) -> fmt::Result {
    let figures = [
        gauge("sessions", "Sessions that there are.", sessions.open),
        gauge(
            "sessions_limit",
            "Sessions that there may be at once.",
            sessions.most_at_once,
        ),
        counter(
            "sessions_begun_total",
            "Sessions of this start: so many seats of a document are used at most.",
            sessions.begun,
        ),
        gauge(
            "sessions_begun_limit",
            "At how many the start ends, for another one to follow.",
            sessions.most,
        ),
        gauge(
            "draining",
            "Whether nobody is let in any more.",
            u64::from(sessions.drains),
        ),
    ];
    for figure in &figures {
        figure.write(out)?;
    }
    Ok(())
}

// Writes how the file is.
fn write_file<W: Write>(file: &FileReport, out: &mut W) -> fmt::Result {
    let figures = [
        counter(
            "file_faults_total",
            "Faults of the file in this start.",
            file.faults,
        ),
        gauge(
            "file_failing",
            "Whether a fault of the file isn't over.",
            u64::from(file.fault.is_some()),
        ),
        counter(
            "batches_total",
            "Batches that were written to the file in this start.",
            file.batches,
        ),
        gauge(
            "batch_milliseconds",
            "For how long a batch is being written by now.",
            file.writing.unwrap_or(0),
        ),
    ];
    for figure in &figures {
        figure.write(out)?;
    }
    match file.written {
        Some(millis) => gauge(
            "last_batch_age_seconds",
            "How long ago the last batch was written.",
            millis / 1000,
        )
        .write(out),
        None => Ok(()),
    }
}

// What is counted of each document.
#[derive(Clone, Copy)]
enum Counted {
    Operations,
    Unstored,
    Replicas,
}

impl Counted {
    fn name(self) -> &'static str {
        match self {
            Counted::Operations => "document_operations",
            Counted::Unstored => "document_unstored_operations",
            Counted::Replicas => "document_replicas",
        }
    }

    fn help(self) -> &'static str {
        match self {
            Counted::Operations => "Operations of the document's log.",
            Counted::Unstored => "Those of them that aren't in the file.",
            Counted::Replicas => "Replicas that made operations of the file.",
        }
    }

    fn of(self, count: &DocumentCount<'_>) -> u64 {
        match self {
            Counted::Operations => count.logged,
            Counted::Unstored => count.lag(),
            Counted::Replicas => count.replicas,
        }
    }

    // Writes it of each document.
    fn write<W: Write>(self, counts: &[DocumentCount<'_>], out: &mut W) -> fmt::Result {
        let (name, help) = (self.name(), self.help());
        write!(
            out,
            "# HELP jcrdt_server_{name} {help}\n# TYPE jcrdt_server_{name} gauge\n"
        )?;
        for count in counts {
            let (document, value) = (count.name, self.of(count));
            write!(
                out,
                "jcrdt_server_{name}{{document=\"{document}\"}} {value}\n"
            )?;
        }
        Ok(())
    }
}

// Writes how the documents are, and where they are full.
fn write_documents<W: Write>(counts: &[DocumentCount<'_>], out: &mut W) -> fmt::Result {
    Counted::Operations.write(counts, out)?;
    gauge(
        "document_operations_limit",
        "Where a document is full.",
        MAX_OPERATIONS as u64,
    )
    .write(out)?;
    Counted::Unstored.write(counts, out)?;
    Counted::Replicas.write(counts, out)?;
    gauge(
        "document_replicas_limit",
        "Where a document takes no other one.",
        MAX_REPLICAS as u64,
    )
    .write(out)
}

// Writes how the documents are, as JSON.
fn write_counts<W: Write>(counts: &[DocumentCount<'_>], out: &mut W) -> fmt::Result {
    let mut before = "";
    for count in counts {
        let (name, operations, unstored) = (count.name, count.logged, count.lag());
        let (replicas, is_full) = (count.replicas, count.is_full());
        write!(
            out,
            "{before}\"{name}\":{{\"operations\":{operations},\"unstored\":{unstored},\"replicas\":{replicas},\"full\":{is_full}}}"
        )?;
        before = ",";
    }
    Ok(())
}

impl<R: Log + Clock + Wait, M: Marker, W: Wait> ServerPages<'_, R, M, W> {
    // How many operations each document has, and how many of them are stored.
    fn counts(&self) -> Result<Vec<DocumentCount<'_>>, AllocError> {
        let shared = self.shared;
        let mut counts = Vec::with_capacity(self.inspection.alloc, shared.names.len())?;
        for place in 0..shared.names.len() {
            let logged = lock_document(self.rt, shared, place, 0).logged();
            counts.push(DocumentCount {
                name: shared.names[place].as_str(),
                logged,
                stored: shared.progress.noted(place),
                replicas: self.inspection.file.replicas(place),
            })?;
        }
        Ok(counts)
    }

    // Why the server isn't well; an empty text where it is.
    fn cause(&self) -> Result<String, AllocError> {
        let file = self.inspection.file.report(self.inspection.rt);
        let sessions = self.inspection.entrance.count();
        let mut cause = String::new(self.inspection.alloc);
        match write_cause(&file, &sessions, &mut cause) {
            Ok(()) => Ok(cause),
            Err(_) => Err(AllocError),
        }
    }

    // Whether the server is well, and why not.
    fn health(&self) -> Result<Page, AllocError> {
        let cause = self.cause()?;
        let is_well = cause.is_empty();
        let counts = self.counts()?;
        let sessions = self.inspection.entrance.count();
        let mut text = String::new(self.inspection.alloc);
        match write_health(is_well, cause.as_str(), &sessions, &counts, &mut text) {
            Ok(()) => Ok(Page {
                status: if is_well {
                    "200 OK"
                } else {
                    "503 Service Unavailable"
                },
                content_type: "application/json",
                text,
            }),
            Err(_) => Err(AllocError),
        }
    }

    // The figures of the server.
    fn metrics(&self) -> Result<Page, AllocError> {
        let file = self.inspection.file.report(self.inspection.rt);
        let sessions = self.inspection.entrance.count();
        let counts = self.counts()?;
        let mut text = String::new(self.inspection.alloc);
        match write_metrics(&file, &sessions, &counts, &mut text) {
            Ok(()) => Ok(Page {
                status: "200 OK",
                content_type: "text/plain; version=0.0.4; charset=utf-8",
                text,
            }),
            Err(_) => Err(AllocError),
        }
    }
}

// Writes whether the server is well, as JSON.
fn write_health<W: Write>(
    is_well: bool,
    cause: &str,
    sessions: &SessionCount,
    counts: &[DocumentCount<'_>],
    out: &mut W,
) -> fmt::Result {
    let (open, most, begun) = (sessions.open, sessions.most_at_once, sessions.begun);
    write!(
        out,
        "{{\"well\":{is_well},\"cause\":\"{cause}\",\"sessions\":{{\"open\":{open},\"most\":{most},\"begun\":{begun}}},\"documents\":{{"
    )?;
    write_counts(counts, out)?;
    out.write_str("}}\n")
}

// Writes the figures of a server, in the text format of Prometheus.
fn write_metrics<W: Write>(
    file: &FileReport,
    sessions: &SessionCount,
    counts: &[DocumentCount<'_>],
    out: &mut W,
) -> fmt::Result {
    write_sessions(sessions, out)?;
    write_file(file, out)?;
    write_documents(counts, out)
}

impl<R: Log + Clock + Wait, M: Marker, W: Wait> Pages for ServerPages<'_, R, M, W> {
    fn page(&self, path: &str) -> Result<Option<Page>, AllocError> {
        match path {
            "/health" => Ok(Some(self.health()?)),
            "/metrics" => Ok(Some(self.metrics()?)),
            _ => Ok(None),
        }
    }
}
