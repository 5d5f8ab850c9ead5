//! Several documents of one stored log: each is read back, copied and totalled by its own name.
use super::deeds::{Case, Deed, all_in_memory};
use super::serving::{Session, Start};

const EDITS: Session<'static> = Session {
    input: br#"["open","c"]
["assign","c",[0,"k"],"c1"]
["open","a"]
["assign","a",[0,"k"],"a1"]
["assign","a",[0,"k"],"a2"]
["open","b"]
["assign","b",[0,"k"],"b1"]
["assign","b",[0,"k"],"b2"]
["assign","b",[0,"k"],"b3"]
"#,
    read_after: usize::MAX,
};

const READS: Session<'static> = Session {
    input: br#"["open","a"]
["values","a",[0,"k"]]
["open","b"]
["values","b",[0,"k"]]
["open","c"]
["values","c",[0,"k"]]
["assign","a",[0,"k"],"a3"]
"#,
    read_after: usize::MAX,
};

const READS_REPLIES: &[u8] = br#"["opened",1]
["values",["a2"]]
["opened",1]
["values",["b3"]]
["opened",1]
["values",["c1"]]
["applied",1,0,[3,"srv-2"]]
"#;

const HAS_SIX: &[u8] = br#"["doc","a",2,[["srv-1",2]]]
["doc","b",3,[["srv-1",3]]]
["doc","c",1,[["srv-1",1]]]
["epoch",1]
"#;

const HAS_SEVEN: &[u8] = br#"["doc","a",3,[["srv-1",2],["srv-2",3]]]
["doc","b",3,[["srv-1",3]]]
["doc","c",1,[["srv-1",1]]]
["epoch",2]
"#;

static THREE_DOCUMENTS: [Case<'static>; 1] = [Case {
    name: "three_documents",
    documents: &["b", "c", "a"],
    deeds: &[
        Deed::Serves(Start {
            server: "srv",
            sessions: &[EDITS],
            status: 0,
            totals: b"[\"total\",\"b\",3,3,3]\n[\"total\",\"c\",1,1,1]\n[\"total\",\"a\",2,2,2]\n",
            replies: None,
        }),
        Deed::Holds(HAS_SIX),
        Deed::Serves(Start {
            server: "srv",
            sessions: &[READS],
            status: 0,
            totals: b"[\"total\",\"b\",0,3,3]\n[\"total\",\"c\",0,1,1]\n[\"total\",\"a\",1,3,3]\n",
            replies: Some(READS_REPLIES),
        }),
        Deed::Holds(HAS_SEVEN),
    ],
}];

#[test]
fn three_documents(rt: HostRuntime) {
    all_in_memory(&rt, rt.alloc(), &THREE_DOCUMENTS);
}

// As many documents as a server has at most.
const SIXTEEN: [&str; 16] = [
    "a", "b", "c", "d", "e", "f", "g", "h", "i", "j", "k", "l", "m", "n", "o", "p",
];

const EDITS_SIXTEEN: Session<'static> = Session {
    input: br#"["open","a"]
["assign","a",[0,"k"],"a1"]
["open","b"]
["assign","b",[0,"k"],"b1"]
["open","c"]
["assign","c",[0,"k"],"c1"]
["open","d"]
["assign","d",[0,"k"],"d1"]
["open","e"]
["assign","e",[0,"k"],"e1"]
["open","f"]
["assign","f",[0,"k"],"f1"]
["open","g"]
["assign","g",[0,"k"],"g1"]
["open","h"]
["assign","h",[0,"k"],"h1"]
["open","i"]
["assign","i",[0,"k"],"i1"]
["open","j"]
["assign","j",[0,"k"],"j1"]
["open","k"]
["assign","k",[0,"k"],"k1"]
["open","l"]
["assign","l",[0,"k"],"l1"]
["open","m"]
["assign","m",[0,"k"],"m1"]
["open","n"]
["assign","n",[0,"k"],"n1"]
["open","o"]
["assign","o",[0,"k"],"o1"]
["open","p"]
["assign","p",[0,"k"],"p1"]
"#,
    read_after: usize::MAX,
};

const READS_SIXTEEN: Session<'static> = Session {
    input: br#"["open","a"]
["values","a",[0,"k"]]
["open","b"]
["values","b",[0,"k"]]
["open","c"]
["values","c",[0,"k"]]
["open","d"]
["values","d",[0,"k"]]
["open","e"]
["values","e",[0,"k"]]
["open","f"]
["values","f",[0,"k"]]
["open","g"]
["values","g",[0,"k"]]
["open","h"]
["values","h",[0,"k"]]
["open","i"]
["values","i",[0,"k"]]
["open","j"]
["values","j",[0,"k"]]
["open","k"]
["values","k",[0,"k"]]
["open","l"]
["values","l",[0,"k"]]
["open","m"]
["values","m",[0,"k"]]
["open","n"]
["values","n",[0,"k"]]
["open","o"]
["values","o",[0,"k"]]
["open","p"]
["values","p",[0,"k"]]
"#,
    read_after: usize::MAX,
};

const SIXTEEN_REPLIES: &[u8] = br#"["opened",1]
["values",["a1"]]
["opened",1]
["values",["b1"]]
["opened",1]
["values",["c1"]]
["opened",1]
["values",["d1"]]
["opened",1]
["values",["e1"]]
["opened",1]
["values",["f1"]]
["opened",1]
["values",["g1"]]
["opened",1]
["values",["h1"]]
["opened",1]
["values",["i1"]]
["opened",1]
["values",["j1"]]
["opened",1]
["values",["k1"]]
["opened",1]
["values",["l1"]]
["opened",1]
["values",["m1"]]
["opened",1]
["values",["n1"]]
["opened",1]
["values",["o1"]]
["opened",1]
["values",["p1"]]
"#;

const MADE_SIXTEEN: &[u8] = br#"["total","a",1,1,1]
["total","b",1,1,1]
["total","c",1,1,1]
["total","d",1,1,1]
["total","e",1,1,1]
["total","f",1,1,1]
["total","g",1,1,1]
["total","h",1,1,1]
["total","i",1,1,1]
["total","j",1,1,1]
["total","k",1,1,1]
["total","l",1,1,1]
["total","m",1,1,1]
["total","n",1,1,1]
["total","o",1,1,1]
["total","p",1,1,1]
"#;

const KEPT_SIXTEEN: &[u8] = br#"["total","a",0,1,1]
["total","b",0,1,1]
["total","c",0,1,1]
["total","d",0,1,1]
["total","e",0,1,1]
["total","f",0,1,1]
["total","g",0,1,1]
["total","h",0,1,1]
["total","i",0,1,1]
["total","j",0,1,1]
["total","k",0,1,1]
["total","l",0,1,1]
["total","m",0,1,1]
["total","n",0,1,1]
["total","o",0,1,1]
["total","p",0,1,1]
"#;

const HAS_SIXTEEN: &[u8] = br#"["doc","a",1,[["srv-1",1]]]
["doc","b",1,[["srv-1",1]]]
["doc","c",1,[["srv-1",1]]]
["doc","d",1,[["srv-1",1]]]
["doc","e",1,[["srv-1",1]]]
["doc","f",1,[["srv-1",1]]]
["doc","g",1,[["srv-1",1]]]
["doc","h",1,[["srv-1",1]]]
["doc","i",1,[["srv-1",1]]]
["doc","j",1,[["srv-1",1]]]
["doc","k",1,[["srv-1",1]]]
["doc","l",1,[["srv-1",1]]]
["doc","m",1,[["srv-1",1]]]
["doc","n",1,[["srv-1",1]]]
["doc","o",1,[["srv-1",1]]]
["doc","p",1,[["srv-1",1]]]
["epoch",1]
"#;

const HAS_SIXTEEN_STILL: &[u8] = br#"["doc","a",1,[["srv-1",1]]]
["doc","b",1,[["srv-1",1]]]
["doc","c",1,[["srv-1",1]]]
["doc","d",1,[["srv-1",1]]]
["doc","e",1,[["srv-1",1]]]
["doc","f",1,[["srv-1",1]]]
["doc","g",1,[["srv-1",1]]]
["doc","h",1,[["srv-1",1]]]
["doc","i",1,[["srv-1",1]]]
["doc","j",1,[["srv-1",1]]]
["doc","k",1,[["srv-1",1]]]
["doc","l",1,[["srv-1",1]]]
["doc","m",1,[["srv-1",1]]]
["doc","n",1,[["srv-1",1]]]
["doc","o",1,[["srv-1",1]]]
["doc","p",1,[["srv-1",1]]]
["epoch",2]
"#;

static SIXTEEN_DOCUMENTS: [Case<'static>; 1] = [Case {
    name: "sixteen_documents",
    documents: &SIXTEEN,
    deeds: &[
        Deed::Serves(Start {
            server: "srv",
            sessions: &[EDITS_SIXTEEN],
            status: 0,
            totals: MADE_SIXTEEN,
            replies: None,
        }),
        Deed::Holds(HAS_SIXTEEN),
        Deed::Serves(Start {
            server: "srv",
            sessions: &[READS_SIXTEEN],
            status: 0,
            totals: KEPT_SIXTEEN,
            replies: Some(SIXTEEN_REPLIES),
        }),
        Deed::Holds(HAS_SIXTEEN_STILL),
    ],
}];

#[test]
fn sixteen_documents(rt: HostRuntime) {
    all_in_memory(&rt, rt.alloc(), &SIXTEEN_DOCUMENTS);
}
