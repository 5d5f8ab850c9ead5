//! Sessions that fail, and starts that are refused.
use super::deeds::{Case, Deed, all_in_memory};
use super::serving::{Session, Start, THREE, THREE_WHOLE, TWO_WHOLE};

// So many bytes are the first two lines of three, and a part of the third.
const FAILS_AFTER: usize = 40;

// With its number it has a byte too many for a replica's name.
const LONG_NAME: &str = "a-name-of-thirty-one-characters";

static FAULTS: [Case<'static>; 2] = [
    // What was read before the source failed is copied, and all of the other session.
    Case {
        name: "session_that_fails_is_copied_so_far",
        documents: &["d"],
        deeds: &[
            Deed::Serves(Start {
                server: "srv",
                sessions: &[
                    Session {
                        input: THREE,
                        read_after: FAILS_AFTER,
                    },
                    TWO_WHOLE,
                ],
                status: 0,
                totals: b"[\"total\",\"d\",3,3,3]\n",
                replies: None,
            }),
            Deed::Holds(b"[\"doc\",\"d\",3,[[\"srv-1\",3]]]\n[\"epoch\",1]\n"),
        ],
    },
    // A server of a name that is too long does not start, and says so; the epoch of the
    // stored log is raised, and no more.
    Case {
        name: "refused_start_is_reported",
        documents: &["d"],
        deeds: &[
            Deed::Serves(Start {
                server: LONG_NAME,
                sessions: &[THREE_WHOLE],
                status: 1,
                totals: b"[\"no\",26,\"copy-refused\"]\n",
                replies: Some(b""),
            }),
            Deed::Holds(b"[\"epoch\",1]\n"),
        ],
    },
];

#[test]
fn faults(rt: HostRuntime) {
    all_in_memory(&rt, rt.alloc(), &FAULTS);
}
