use doc_api::{CompactText, Ids, Look, Reply, Scalars, State, Waiting};
use json_scalar::{Refusal, Scalar};
use lamport_id::{Id, ReplicaName};
use line_feed::Writer;
use line_feed::doubles::FailAfter;
use line_proto::{DocRequest, LineReply, Request, WriteFault};
use op_core::{Front, Mutation};
use std::alloc::Global;
use std::test::Fail;

// The kind of a request, for tests.
fn kind_of(request: &Request) -> &'static str {
    match request {
        Request::Quit => "quit",
        Request::Version => "version",
        Request::Of(_, ask) => kind_on_document(ask),
    }
}

fn kind_on_document(ask: &DocRequest) -> &'static str {
    match ask {
        DocRequest::Open => "open",
        DocRequest::State(state) => kind_of_state(*state),
        DocRequest::Change(_, mutation) => kind_of_change(mutation),
        DocRequest::Look(_, look) => kind_of_query(*look),
        DocRequest::Let(_, _) => "let",
        DocRequest::Deliver(_) => "deliver",
        DocRequest::Operations(_, _) => "operations",
        DocRequest::Chains(_, _) => "chains",
        DocRequest::IsCopied(_) => "copied",
        DocRequest::Forget(_) => "forget",
    }
}

fn kind_of_state(state: State) -> &'static str {
    match state {
        State::Front => "front",
        State::Held => "held",
        State::Account => "account",
        State::Size => "size",
    }
}

fn kind_of_change(mutation: &Mutation) -> &'static str {
    match mutation {
        Mutation::Assign(_) => "assign",
        Mutation::Insert(_) => "insert",
        Mutation::Delete => "delete",
        Mutation::Add(_) => "add",
    }
}

fn kind_of_query(look: Look) -> &'static str {
    match look {
        Look::Keys => "keys",
        Look::Values => "values",
        Look::Items => "items",
        Look::Conflicts => "conflicts",
        Look::Show => "show",
        Look::Sum => "sum",
    }
}

// The number of the cause against the line, or 0 if it is a request.
fn cause(alloc: Global, line: &[u8]) -> u64 {
    match Request::read(alloc, line) {
        Ok(_) => 0,
        Err(refusal) => refusal.number(),
    }
}

// Whether the line is a request of this kind.
fn is_of_kind(alloc: Global, line: &str, expected: &str) -> bool {
    match Request::read(alloc, line.as_bytes()) {
        Ok(request) => kind_of(&request) == expected,
        Err(_) => false,
    }
}

// A line of each kind, and its kind.
static REQUESTS: [(&str, &str); 23] = [
    ("[\"quit\"]", "quit"),
    ("[\"version\"]", "version"),
    (" [\"open\" , \"d\"]\r", "open"),
    ("[\"front\",\"d\"]", "front"),
    ("[\"held\",\"d\"]", "held"),
    ("[\"account\",\"d\"]", "account"),
    ("[\"size\",\"d\"]", "size"),
    ("[\"assign\",\"d\",[0,\"k\"],{}]", "assign"),
    (
        "[\"insert\",\"d\",[\"x\",0],-9223372036854775808]",
        "insert",
    ),
    ("[\"add\",\"d\",[0],9223372036854775807]", "add"),
    ("[\"delete\",\"d\",[0,\"k\",1]]", "delete"),
    ("[\"let\",\"d\",\"x\",[\"y\"]]", "let"),
    ("[\"keys\",\"d\",[0]]", "keys"),
    ("[\"values\",\"d\",[0]]", "values"),
    ("[\"items\",\"d\",[\"\",18446744073709551615]]", "items"),
    ("[\"conflicts\",\"d\",[0]]", "conflicts"),
    ("[\"show\",\"d\",[0]]", "show"),
    ("[\"sum\",\"d\",[0]]", "sum"),
    (
        "[\"deliver\",\"d\",[\"op\",[1,\"p\"],[],[[],0],[\"assign\",{}]]]",
        "deliver",
    ),
    ("[\"ops\",\"d\",[[\"o\",1],[\"q\",2]],64]", "operations"),
    ("[\"chains\",\"d\",[],[[\"o\",1],[\"q\",2]]]", "chains"),
    ("[\"forget\",\"d\",[1,\"p\"]]", "forget"),
    ("[\"copied\",\"d\",[1,\"p\"]]", "copied"),
];

#[test]
fn reads_each_request(rt: HostRuntime) -> Result<(), Fail> {
    for (line, expected) in &REQUESTS {
        assert!(rt; is_of_kind(rt.alloc(), line, expected), "{line}");
    }
    Ok(())
}

// Lines that are no request, and the number of the first cause against each.
static CAUSES: [(&str, u64); 34] = [
    // no JSON, before all else
    ("", 1u64),
    ("[\"quit\"", 1),
    ("[\"nothing\",1e999]", 1),
    ("[\"assign\",\"d\",[1],1.5] 0", 1),
    // no request, before a wrong value
    ("{}", 2),
    ("[]", 2),
    ("[\"nothing\"]", 2),
    ("[\"open\"]", 2),
    ("[\"quit\",0]", 2),
    ("[\"open\",4]", 2),
    ("[\"keys\",\"d\",[1]]", 2),
    ("[\"keys\",\"d\",[]]", 2),
    ("[\"keys\",\"d\",[0,-1]]", 2),
    ("[\"keys\",\"d\",[0,1.0]]", 2),
    ("[\"assign\",\"d\",[],1.5]", 2),
    ("[\"assign\",7,[0],1.5]", 2),
    ("[\"assign\",\"d\",[0],1.5,0]", 2),
    ("[\"let\",\"d\",0,[0]]", 2),
    ("[\"forget\",\"d\",[0,\"p\"]]", 2),
    ("[\"copied\",\"d\",[0,\"p\"]]", 2),
    ("[\"size\",\"d\",1]", 2),
    ("[\"ops\",\"d\",[[\"q\",1],[\"o\",2]],65]", 2),
    ("[\"ops\",\"d\",[[\"q\",1],[\"o\",2]],0]", 2),
    ("[\"ops\",\"d\",[[\"q\",1],[\"o\",0]],1]", 2),
    ("[\"chains\",\"d\",[[\"q\",1],[\"o\",2]],[[\"q\",0]]]", 2),
    ("[\"chains\",\"d\",[]]", 2),
    // a wrong value, an order of a front
    ("[\"assign\",\"d\",[0],1.5]", 6),
    ("[\"insert\",\"nowhere\",[\"unbound\"],[0]]", 6),
    ("[\"add\",\"d\",[0],9223372036854775808]", 6),
    ("[\"add\",\"d\",[0],\"1\"]", 6),
    ("[\"ops\",\"d\",[[\"q\",1],[\"o\",2]],64]", 13),
    ("[\"ops\",\"d\",[[\"q\",1],[\"q\",2]],1]", 13),
    ("[\"chains\",\"d\",[[\"q\",1],[\"o\",2]],[]]", 13),
    ("[\"chains\",\"d\",[],[[\"q\",1],[\"q\",2]]]", 13),
];

#[test]
fn reports_the_first_cause(rt: HostRuntime) {
    for (line, number) in &CAUSES {
        assert!(rt; cause(rt.alloc(), line.as_bytes()) == *number, "{line}");
    }
    assert_eq!(rt; cause(rt.alloc(), b"[\"\xff\"]"), 1);
}

// JSON in place of an operation, and the number of the first cause against it.
static OPERATIONS: [(&str, u64); 8] = [
    ("0", 12u64),
    ("[\"op\",[1,\"P\"],[],[[[\"m\",0]],\"k\"],[\"delete\"]]", 12),
    ("[\"op\",[1,\"p\"],[],[[],\"k\"],[\"delete\"]]", 12),
    ("[\"op\",[1,\"p\"],[],[[[\"l\",0]],1],[\"delete\"]]", 12),
    (
        "[\"op\",[1,\"p\"],[],[[[\"m\",0]],\"k\"],[\"assign\",1.5]]",
        12,
    ),
    // a value that is none, with an order that isn't kept
    (
        "[\"op\",[9,\"p\"],[[\"q\",1],[\"o\",2]],[[],0],[\"assign\",[0]]]",
        12,
    ),
    (
        "[\"op\",[3,\"p\"],[[\"q\",1],[\"o\",2]],[[[\"m\",0]],\"k\"],[\"delete\"]]",
        13,
    ),
    ("[\"op\",[2,\"p\"],[],[[[\"m\",0]],\"k\"],[\"delete\"]]", 13),
];

#[test]
fn reports_the_first_cause_against_an_operation(rt: HostRuntime) {
    for (operation, number) in &OPERATIONS {
        assert!(rt;
            delivered(rt.alloc(), operation) == Ok(*number),
            "{operation}"
        );
    }
}

// The line that delivers an operation.
fn delivery(alloc: Global, operation: &str) -> Result<String, Refusal> {
    let mut line = String::from_str(alloc, "[\"deliver\",\"d\",")?;
    line.push_str(operation)?;
    line.push_str("]")?;
    Ok(line)
}

// The number of the cause against an operation that is delivered.
fn delivered(alloc: Global, operation: &str) -> Result<u64, Refusal> {
    Ok(cause(alloc, delivery(alloc, operation)?.as_bytes()))
}

// The parts with so many of the same between them.
fn around(
    alloc: Global,
    before: &str,
    many: usize,
    piece: &str,
    after: &str,
) -> Result<String, Refusal> {
    let mut line = String::from_str(alloc, before)?;
    for _ in 0..many {
        line.push_str(piece)?;
    }
    line.push_str(after)?;
    Ok(line)
}

// The number of the cause against such a line.
fn cause_around(
    alloc: Global,
    before: &str,
    many: usize,
    piece: &str,
    after: &str,
) -> Result<u64, Refusal> {
    Ok(cause(alloc, around(alloc, before, many, piece, after)?.as_bytes()))
}

// Lines at a limit and past it, by their parts, and the number of the cause against each, or 0.
static LIMITS: [(&str, usize, &str, &str, u64); 7] = [
    ("[\"assign\",\"d\",[0],\"", 4096, "a", "\"]", 0),
    ("[\"assign\",\"d\",[0],\"", 4097, "a", "\"]", 6),
    ("[\"let\",\"d\",\"", 128, "a", "\",[0]]", 0),
    ("[\"let\",\"d\",\"", 129, "a", "\",[0]]", 2),
    ("[\"keys\",\"d\",[\"", 129, "a", "\"]]", 2),
    // a longer text further on is the step's matter
    ("[\"keys\",\"d\",[0,\"", 129, "a", "\"]]", 0),
    ("[\"keys\",\"d\",[0", 2000, ",1", "]]", 0),
];

#[test]
fn reads_up_to_the_limits(rt: HostRuntime) {
    for (before, many, piece, after, number) in &LIMITS {
        let found = cause_around(rt.alloc(), before, *many, piece, after);
        assert!(rt; found == Ok(*number), "{before}");
    }
}

// The number of the cause against an empty array in so many arrays less one.
fn cause_of_depth(alloc: Global, depth: usize) -> Result<u64, Refusal> {
    let opening = around(alloc, "", depth, "[", "")?;
    cause_around(alloc, opening.as_str(), depth, "]", "")
}

#[test]
fn reads_down_to_the_deepest_array(rt: HostRuntime) {
    assert!(rt; cause_of_depth(rt.alloc(), 127) == Ok(2));
    assert!(rt; cause_of_depth(rt.alloc(), 128) == Ok(1));
}

// Whether the reply is written as that line.
fn is_written_as(alloc: Global, reply: LineReply, line: &str) -> bool {
    let mut sink = Writer::new(Vec::<u8>::new(alloc));
    reply.write(alloc, &mut sink) == Ok(()) && sink.into_inner().as_slice() == line.as_bytes()
}

// Whether the document's reply is written as that line.
fn is_answered_as(alloc: Global, reply: Reply, line: &str) -> bool {
    is_written_as(alloc, LineReply::Answered(reply), line)
}

fn own_id() -> Result<Id, Refusal> {
    let replica = ReplicaName::read(b"srv-1").ok_or(Refusal::BadRequest)?;
    Ok(Id {
        counter: 3,
        replica,
    })
}

fn own_ids(alloc: Global, many: usize) -> Result<Ids, Refusal> {
    let id = own_id()?;
    Ok(Ids::from(vec![in alloc; id; many]?))
}

#[test]
fn writes_replies_of_the_session(rt: HostRuntime) -> Result<(), Fail> {
    assert!(rt; is_written_as(rt.alloc(), LineReply::Opened(1), "[\"opened\",1]\n"));
    assert!(rt; is_written_as(rt.alloc(), LineReply::Bound, "[\"bound\"]\n"));
    assert!(rt; is_written_as(rt.alloc(), LineReply::Version, "[\"version\",2]\n"));
    assert!(rt; is_written_as(rt.alloc(), LineReply::Bye, "[\"bye\"]\n"));
    let applied = Reply::Applied {
        count: 1,
        dropped: 0,
        id: own_id()?,
    };
    assert!(rt; is_answered_as(rt.alloc(), applied, "[\"applied\",1,0,[3,\"srv-1\"]]\n"));
    Ok(())
}

#[test]
fn writes_replies_of_one_part(rt: HostRuntime) {
    assert!(rt; is_answered_as(rt.alloc(), Reply::Known, "[\"known\"]\n"));
    assert!(rt; is_answered_as(rt.alloc(), Reply::Forgotten, "[\"forgotten\"]\n"));
    assert!(rt; is_answered_as(rt.alloc(), Reply::Index(3), "[\"index\",3]\n"));
    assert!(rt;
        is_answered_as(
            rt.alloc(),
            Reply::Account(18_446_744_073_709_551_615),
            "[\"account\",18446744073709551615]\n"
        )
    );
    let size = Reply::Size {
        logged: 18_446_744_073_709_551_615,
        copied: 0,
        replicas: 256,
    };
    assert!(rt; is_answered_as(rt.alloc(), size, "[\"size\",18446744073709551615,0,256]\n"));
    assert!(rt; is_answered_as(rt.alloc(), Reply::Copied(true), "[\"copied\",true]\n"));
    assert!(rt; is_answered_as(rt.alloc(), Reply::Copied(false), "[\"copied\",false]\n"));
}

#[test]
fn writes_refusals(rt: HostRuntime) {
    let rows = [
        (Refusal::BadRequest, "[\"no\",2,\"bad-request\"]\n"),
        (Refusal::Forked { last: 7 }, "[\"no\",14,\"forked\",7]\n"),
        (Refusal::CopyRefused, "[\"no\",26,\"copy-refused\"]\n"),
    ];
    for (refusal, line) in rows {
        assert!(rt;
            is_answered_as(rt.alloc(), Reply::Refused(refusal), line),
            "{line}"
        );
    }
}

#[test]
fn writes_what_is_missing(rt: HostRuntime) -> Result<(), Fail> {
    let none = Ids::from(Vec::new(rt.alloc()));
    assert!(rt; is_answered_as(rt.alloc(), Reply::Held(none), "[\"held\",[]]\n"));
    let two = own_ids(rt.alloc(), 2)?;
    assert!(rt;
        is_answered_as(
            rt.alloc(),
            Reply::Held(two),
            "[\"held\",[[3,\"srv-1\"],[3,\"srv-1\"]]]\n"
        )
    );
    Ok(())
}

#[test]
fn writes_what_was_read(rt: HostRuntime) -> Result<(), Fail> {
    let keys = String::from_str(rt.alloc(), "[\"\",\"a\\\"b\"]")?;
    assert!(rt;
        is_answered_as(
            rt.alloc(),
            Reply::Keys(CompactText::from(keys)),
            "[\"keys\",[\"\",\"a\\\"b\"]]\n"
        )
    );
    let scalars = vec![in rt.alloc(); Scalar::Int(-1), Scalar::Bool(true), Scalar::Null]?;
    assert!(rt;
        is_answered_as(
            rt.alloc(),
            Reply::Values(Scalars::from(scalars)),
            "[\"values\",[-1,true,null]]\n"
        )
    );
    assert!(rt;
        is_answered_as(
            rt.alloc(),
            Reply::Sum(-18_446_744_073_709_551_614),
            "[\"sum\",\"-18446744073709551614\"]\n"
        )
    );
    Ok(())
}

#[test]
fn writes_elements(rt: HostRuntime) -> Result<(), Fail> {
    let items = String::from_str(rt.alloc(), "[[[3,\"srv-1\"],[1]]]")?;
    assert!(rt;
        is_answered_as(
            rt.alloc(),
            Reply::Items(CompactText::from(items)),
            "[\"items\",[[[3,\"srv-1\"],[1]]]]\n"
        )
    );
    let shown = String::from_str(rt.alloc(), "[[\"val\",[2,\"p\"],\"x\"]]")?;
    assert!(rt;
        is_answered_as(
            rt.alloc(),
            Reply::Show(CompactText::from(shown)),
            "[\"show\",[[\"val\",[2,\"p\"],\"x\"]]]\n"
        )
    );
    Ok(())
}

#[test]
fn writes_conflicts(rt: HostRuntime) -> Result<(), Fail> {
    let values = String::from_str(rt.alloc(), "[[[3,\"srv-1\"],{}],[[4,\"srv-1\"],[]]]")?;
    assert!(rt;
        is_answered_as(
            rt.alloc(),
            Reply::Conflicts(CompactText::from(values)),
            "[\"conflicts\",[[[3,\"srv-1\"],{}],[[4,\"srv-1\"],[]]]]\n"
        )
    );
    Ok(())
}

#[test]
fn writes_the_log(rt: HostRuntime) -> Result<(), Fail> {
    let operations = "[[\"op\",[1,\"p\"],[],[[[\"m\",0]],\"n\"],[\"add\",-7]]]";
    let text = CompactText::from(String::from_str(rt.alloc(), operations)?);
    assert!(rt;
        is_answered_as(
            rt.alloc(),
            Reply::Operations(text),
            "[\"ops\",[[\"op\",[1,\"p\"],[],[[[\"m\",0]],\"n\"],[\"add\",-7]]]]\n"
        )
    );
    Ok(())
}

#[test]
fn writes_chains(rt: HostRuntime) -> Result<(), Fail> {
    let text = CompactText::from(String::from_str(rt.alloc(), "[[\"p\",1,\"00\"]]")?);
    assert!(rt;
        is_answered_as(
            rt.alloc(),
            Reply::Chains(text),
            "[\"chains\",[[\"p\",1,\"00\"]]]\n"
        )
    );
    Ok(())
}

#[test]
fn writes_fronts_and_what_waits(rt: HostRuntime) -> Result<(), Fail> {
    let front = Front::from_pairs(rt.alloc(), &[(own_id()?.replica, 3u64)])?;
    assert!(rt;
        is_answered_as(
            rt.alloc(),
            Reply::Front(front),
            "[\"front\",[[\"srv-1\",3]]]\n"
        )
    );
    let missing = own_ids(rt.alloc(), 1)?;
    let waiting = Waiting::from(vec![in rt.alloc(); (own_id()?, missing)]?);
    assert!(rt;
        is_answered_as(
            rt.alloc(),
            Reply::Waiting(waiting),
            "[\"waiting\",[[[3,\"srv-1\"],[[3,\"srv-1\"]]]]]\n"
        )
    );
    Ok(())
}

#[test]
fn a_sink_that_fails_has_a_prefix_of_the_line(rt: HostRuntime) -> Result<(), Fail> {
    let missing = own_ids(rt.alloc(), 2)?;
    let mut sink = FailAfter::new(Writer::new(Vec::<u8>::new(rt.alloc())), 20);
    let reply = LineReply::Answered(Reply::Held(missing));
    assert!(rt; reply.write(rt.alloc(), &mut sink) == Err(WriteFault::Device));
    let FailAfter { device, .. } = sink;
    assert!(rt; device.into_inner().as_slice() == b"[\"held\",[[3,\"srv-1\"]".as_slice());
    Ok(())
}
