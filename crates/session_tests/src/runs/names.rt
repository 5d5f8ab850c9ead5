//! Names of servers and documents, good and bad.
use super::{Run, run_of, writes};

// The names of a server and its documents, and the status of a run over no bytes.
struct Row {
    name: &'static str,
    server: &'static str,
    documents: &'static [&'static str],
    status: u8,
}

static ROWS: [Row; 8] = [
    Row {
        name: "good names",
        server: "srv",
        documents: &["a", "b-2"],
        status: 0,
    },
    Row {
        name: "a server's name of 24 bytes",
        server: "a-name-of-24-bytes-whole",
        documents: &["a"],
        status: 0,
    },
    Row {
        name: "16 documents",
        server: "srv",
        documents: &[
            "a", "b", "c", "d", "e", "f", "g", "h", "i", "j", "k", "l", "m", "n", "o", "p",
        ],
        status: 0,
    },
    Row {
        name: "an empty name of a server",
        server: "",
        documents: &["a"],
        status: 2,
    },
    Row {
        name: "a server's name of 25 bytes",
        server: "a-name-of-25-bytes-in-all",
        documents: &["a"],
        status: 2,
    },
    Row {
        name: "two documents of one name",
        server: "srv",
        documents: &["a", "a"],
        status: 2,
    },
    Row {
        name: "a document's name with a capital letter",
        server: "srv",
        documents: &["A"],
        status: 2,
    },
    Row {
        name: "17 documents",
        server: "srv",
        documents: &[
            "a", "b", "c", "d", "e", "f", "g", "h", "i", "j", "k", "l", "m", "n", "o", "p", "q",
        ],
        status: 2,
    },
];

#[test]
fn good_and_bad_names(rt: HostRuntime) {
    for row in &ROWS {
        let run = Run {
            server: row.server,
            documents: row.documents,
            ..run_of(b"")
        };
        writes(&rt, rt.alloc(), row.name, run, row.status, b"");
    }
}
