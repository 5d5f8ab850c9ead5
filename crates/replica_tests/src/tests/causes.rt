//! Deliveries with two causes against them, and which is reported. The log or the held operations
//! decide one cause at least.
use super::cases::{Before, Case, are_met};
use super::samples::{Deed, Digest};
use json_scalar::Refusal;
use std::test::Fail;

// It waits for one of p, and bears the name of the replica itself.
const OWN_AND_WAITING: &str = r#"["op",[2,"srv-1"],[["p",1]],[[["m",0]],"k"],["assign",2]]"#;

// The first of one replica more than a log may have, where there are 256.
const ONE_TOO_MANY: &str = r#"["op",[1,"r256"],[],[[["m",0]],"k"],["assign",1]]"#;

// A change of the replica's own.
const DELETION: &str = r#"["op",[4,"srv-1"],[["o",2],["q",3]],[[["m",0]],"k"],["delete"]]"#;

const CAUSES: [Case; 13] = [
    Case {
        name: "known_before_own_name",
        replica: b"srv-1",
        before: (Before::Three, 0, 3),
        rows: &[
            (Deed::Make, DELETION, Digest::Applied(1, 0, 4)),
            (Deed::Deliver, DELETION, Digest::Known),
        ],
        logged: 4,
    },
    Case {
        name: "id_conflict_before_own_name",
        replica: b"srv-1",
        before: (Before::Three, 0, 3),
        rows: &[
            (Deed::Make, DELETION, Digest::Applied(1, 0, 4)),
            (
                Deed::Deliver,
                r#"["op",[4,"srv-1"],[["o",2],["q",3]],[[["m",0]],"k"],["assign",2]]"#,
                Digest::Refused(Refusal::IdConflict),
            ),
        ],
        logged: 4,
    },
    Case {
        name: "id_conflict_before_forked",
        replica: b"srv-1",
        before: (Before::Three, 0, 3),
        rows: &[(
            Deed::Deliver,
            r#"["op",[2,"o"],[["o",1]],[[["m",0],["l","l"]],1],["insert","b"]]"#,
            Digest::Refused(Refusal::IdConflict),
        )],
        logged: 3,
    },
    Case {
        name: "own_name_before_missing_front_id",
        replica: b"srv-1",
        before: (Before::Three, 0, 3),
        rows: &[
            (
                Deed::Deliver,
                OWN_AND_WAITING,
                Digest::Refused(Refusal::OwnName),
            ),
            (
                Deed::Forget,
                OWN_AND_WAITING,
                Digest::Refused(Refusal::NotHeld),
            ),
        ],
        logged: 3,
    },
    Case {
        name: "held_once_more_before_held_full",
        replica: b"srv-1",
        before: (Before::Held, 256, 0),
        rows: &[
            (
                Deed::Deliver,
                r#"["op",[2,"p"],[["p",1]],[[],0],["delete"]]"#,
                Digest::Held,
            ),
            (
                Deed::Deliver,
                r#"["op",[257,"p"],[["p",256]],[[],0],["delete"]]"#,
                Digest::Held,
            ),
            (
                Deed::Deliver,
                r#"["op",[258,"p"],[["p",257]],[[],0],["delete"]]"#,
                Digest::Refused(Refusal::HeldFull),
            ),
        ],
        logged: 0,
    },
    Case {
        name: "id_conflict_before_held_full",
        replica: b"srv-1",
        before: (Before::Held, 256, 0),
        rows: &[(
            Deed::Deliver,
            r#"["op",[257,"p"],[["p",256]],[[["m",0]],"k"],["delete"]]"#,
            Digest::Refused(Refusal::IdConflict),
        )],
        logged: 0,
    },
    Case {
        name: "own_name_before_held_full",
        replica: b"srv-1",
        before: (Before::Held, 256, 0),
        rows: &[(
            Deed::Deliver,
            OWN_AND_WAITING,
            Digest::Refused(Refusal::OwnName),
        )],
        logged: 0,
    },
    // It names no operation of its replica, which has two, and is held still, since another is
    // missing.
    Case {
        name: "missing_front_id_before_forked",
        replica: b"srv-1",
        before: (Before::Three, 0, 3),
        rows: &[(
            Deed::Deliver,
            r#"["op",[3,"o"],[["z",2]],[[["m",0]],"k"],["assign",2]]"#,
            Digest::Held,
        )],
        logged: 3,
    },
    Case {
        name: "bad_front_before_forked",
        replica: b"srv-1",
        before: (Before::Three, 0, 3),
        rows: &[(
            Deed::Deliver,
            r#"["op",[4,"o"],[["q",3]],[[["m",0]],"k"],["assign",2]]"#,
            Digest::Refused(Refusal::BadFront),
        )],
        logged: 3,
    },
    Case {
        name: "bad_front_before_bad_cursor",
        replica: b"srv-1",
        before: (Before::Three, 0, 3),
        rows: &[(
            Deed::Deliver,
            r#"["op",[4,"p"],[["q",3]],[[["m",0],["l","l"]],[2,"o"]],["assign","b"]]"#,
            Digest::Refused(Refusal::BadFront),
        )],
        logged: 3,
    },
    Case {
        name: "forked_before_bad_cursor",
        replica: b"srv-1",
        before: (Before::Three, 0, 3),
        rows: &[(
            Deed::Deliver,
            r#"["op",[2,"q"],[["o",1]],[[["m",0],["l","l"]],[2,"o"]],["assign","b"]]"#,
            Digest::Refused(Refusal::Forked { last: 3 }),
        )],
        logged: 3,
    },
    Case {
        name: "bad_cursor_before_too_many_replicas",
        replica: b"srv-1",
        before: (Before::Crowd, 0, 256),
        rows: &[
            (
                Deed::Deliver,
                r#"["op",[1,"x"],[],[[["m",0],["l","l"]],[1,"r1"]],["assign","b"]]"#,
                Digest::Refused(Refusal::BadCursor),
            ),
            (
                Deed::Deliver,
                ONE_TOO_MANY,
                Digest::Refused(Refusal::TooManyReplicas),
            ),
        ],
        logged: 256,
    },
    // It takes half a second, and two minutes under `rt try`, whose limit then has to be higher
    // (`--seconds 600`).
    Case {
        name: "log_full_before_too_many_replicas",
        replica: b"srv-1",
        before: (Before::Full, 0, 100_000),
        rows: &[
            (
                Deed::Deliver,
                ONE_TOO_MANY,
                Digest::Refused(Refusal::LogFull),
            ),
            (Deed::Make, DELETION, Digest::Refused(Refusal::LogFull)),
        ],
        logged: 100_000,
    },
];

#[test]
fn two_causes(rt: HostRuntime) -> Result<(), Fail> {
    are_met(&rt, rt.alloc(), &CAUSES)?;
    Ok(())
}
