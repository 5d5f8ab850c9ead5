//! Operations delivered out of order, twice, and against the rules, also against several at once;
//! held ones dropped, and released by own changes; what a document's seats add up to; and calls
//! that are out of memory.
mod cases;
mod causes;
mod copying;
mod counters;
mod foreign;
mod gathering;
mod holding;
mod out_of_memory;
mod released;
mod samples;

use cases::{Before, Case, are_met};
use json_scalar::Refusal;
use op_core::Mutation;
use replica_core::{Applied, Misfit, Replica};
use samples::{Deed, Digest, holds, named, operation, whole};
use std::alloc::Global;
use std::test::Fail;

// Assignments of null to the document.
const FIRST: &str = r#"["op",[1,"p"],[],[[],0],["assign",null]]"#;

const SECOND: &str = r#"["op",[2,"p"],[["p",1]],[[],0],["assign",null]]"#;

const FIRST_OF_Q: &str = r#"["op",[1,"q"],[],[[],0],["assign",null]]"#;

const SECOND_OF_Q: &str = r#"["op",[2,"q"],[["p",1]],[[],0],["assign",null]]"#;

const ONE_BY_ONE: [Case; 6] = [
    Case {
        name: "delivered_twice",
        replica: b"srv-1",
        before: (Before::Nothing, 0, 0),
        rows: &[
            (Deed::Deliver, FIRST, Digest::Applied(1, 0, 1)),
            (Deed::Deliver, FIRST, Digest::Known),
        ],
        logged: 1,
    },
    Case {
        name: "forget_held",
        replica: b"srv-1",
        before: (Before::Nothing, 0, 0),
        rows: &[
            (Deed::Deliver, SECOND, Digest::Held),
            (Deed::Forget, SECOND, Digest::Forgotten),
            (Deed::Deliver, FIRST, Digest::Applied(1, 0, 1)),
        ],
        logged: 1,
    },
    Case {
        name: "local_releases_held",
        replica: b"p",
        before: (Before::Nothing, 0, 0),
        rows: &[
            (Deed::Deliver, SECOND_OF_Q, Digest::Held),
            (
                Deed::Make,
                r#"["op",[1,"p"],[],[[],0],["delete"]]"#,
                Digest::Applied(2, 0, 1),
            ),
        ],
        logged: 2,
    },
    Case {
        name: "misfit_dropped_on_release",
        replica: b"srv-1",
        before: (Before::Nothing, 0, 0),
        rows: &[
            (Deed::Deliver, FIRST_OF_Q, Digest::Applied(1, 0, 1)),
            (Deed::Deliver, SECOND_OF_Q, Digest::Held),
            (Deed::Deliver, FIRST, Digest::Applied(1, 1, 1)),
        ],
        logged: 2,
    },
    Case {
        name: "forget_not_held",
        replica: b"srv-1",
        before: (Before::Nothing, 0, 0),
        rows: &[(Deed::Forget, FIRST, Digest::Refused(Refusal::NotHeld))],
        logged: 0,
    },
    Case {
        name: "foreign_refusals_held_full",
        replica: b"srv-1",
        before: (Before::Held, 256, 0),
        rows: &[(
            Deed::Deliver,
            r#"["op",[258,"p"],[["p",257]],[[],0],["delete"]]"#,
            Digest::Refused(Refusal::HeldFull),
        )],
        logged: 0,
    },
];

#[test]
fn one_by_one(rt: HostRuntime) -> Result<(), Fail> {
    are_met(&rt, rt.alloc(), &ONE_BY_ONE)?;
    Ok(())
}

// The two calls that are met elsewhere only as commands.
#[test]
fn forget_and_local(rt: HostRuntime) -> Result<(), Fail> {
    let alloc = rt.alloc();
    let mut replica = named(alloc, b"p")?;
    let Applied { count, dropped, id } = forgets_and_changes(alloc, &mut replica)?;
    let is = (count, dropped, id.counter) == (1, 0, 1);
    holds(&rt, is, "a change that releases none");
    Ok(())
}

// Drops what is held until p makes its first operation, and makes it then.
fn forgets_and_changes(alloc: Global, replica: &mut Replica) -> Result<Applied, Refusal> {
    let op = operation(alloc, SECOND_OF_Q)?;
    let id = op.id();
    replica.deliver(op)?;
    replica.forget(id)?;
    replica.local(whole(alloc), Mutation::Delete)
}

#[test]
fn restored(rt: HostRuntime) -> Result<(), Fail> {
    let alloc = rt.alloc();
    holds(&rt, restores(alloc, &[FIRST, SECOND]), "two that fit");
    let is = is_conflict_at(
        samples::restored(alloc, b"srv-2", &[FIRST, SECOND, SECOND]),
        2,
    );
    holds(&rt, is, "one of them twice");
    Ok(())
}

fn restores(alloc: Global, texts: &[&str]) -> bool {
    samples::restored(alloc, b"srv-2", texts).is_ok()
}

fn is_conflict_at(answer: Result<Replica, Misfit>, expected: usize) -> bool {
    match answer {
        Err(Misfit::At { place, cause }) => place == expected && cause == Refusal::IdConflict,
        _ => false,
    }
}
