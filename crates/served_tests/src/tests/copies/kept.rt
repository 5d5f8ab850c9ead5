//! What is kept, and what is refused and changes nothing.
use super::samples;
use super::steps::{Case, Log, REFUSED, Step, StepAnswer, all_answer};

static KEPT: [Case<'static>; 9] = [
    // The document is restored under another name, and its next change comes after what was copied.
    Case {
        name: "restart_from_copy",
        log: Log::Texts(&samples::FIRST_RUN),
        steps: &[
            (Step::Open, StepAnswer::Done),
            (Step::Check("[\"epoch\",0]\n"), StepAnswer::Done),
            (Step::Up, StepAnswer::Number(1)),
            (Step::Add("d", 0, 0, 1), StepAnswer::Done),
            (
                Step::Check("[\"doc\",\"d\",1,[[\"srv-1\",1]]]\n[\"epoch\",1]\n"),
                StepAnswer::Done,
            ),
            (Step::Open, StepAnswer::Done),
            (Step::Epoch, StepAnswer::Number(1)),
            (Step::Up, StepAnswer::Number(2)),
            (
                Step::Edit(
                    "d",
                    r#"["op",[2,"srv-2"],[["srv-1",1]],[[["m",0]],"k"],["assign",1]]"#,
                ),
                StepAnswer::Done,
            ),
        ],
    },
    Case {
        name: "copy_refusals",
        log: Log::Texts(&samples::REGISTER_AND_COLORS),
        steps: &[
            (Step::Open, StepAnswer::Done),
            (Step::Add("d", 0, 0, 3), StepAnswer::Done),
            (Step::Add("d", 2, 2, 3), REFUSED),
            (Step::Add("d", 3, 3, 4), REFUSED),
            (Step::Load("d"), StepAnswer::Rows(3)),
            (Step::Open, StepAnswer::Done),
            (Step::Load("d"), StepAnswer::Rows(3)),
        ],
    },
    // Batches behind one another, empty ones, and ones that are refused.
    Case {
        name: "batches",
        log: Log::Numbered(5, 0),
        steps: &[
            (Step::Open, StepAnswer::Done),
            (Step::Add("d", 0, 0, 3), StepAnswer::Done),
            (Step::Add("d", 3, 0, 0), StepAnswer::Done),
            (Step::Add("e", 0, 0, 0), StepAnswer::Done),
            (Step::Add("d", 4, 3, 4), REFUSED),
            (Step::Add("d", 2, 0, 0), REFUSED),
            (Step::Add("e", 1, 0, 0), REFUSED),
            (Step::Add("D", 0, 0, 1), REFUSED),
            (Step::Add("", 0, 0, 0), REFUSED),
            (Step::Load("d"), StepAnswer::Rows(3)),
            (Step::Add("d", 3, 3, 5), StepAnswer::Done),
            (Step::Docs, StepAnswer::Rows(1)),
            (Step::Open, StepAnswer::Done),
            (Step::Docs, StepAnswer::Rows(1)),
            (Step::Load("d"), StepAnswer::Rows(5)),
            (Step::Load("e"), StepAnswer::Rows(0)),
        ],
    },
    // A check prints the documents in the order of their names, in whatever order they came.
    Case {
        name: "documents_in_order",
        log: Log::Numbered(2, 0),
        steps: &[
            (Step::Open, StepAnswer::Done),
            (Step::Add("m", 0, 0, 1), StepAnswer::Done),
            (Step::Add("z", 0, 0, 1), StepAnswer::Done),
            (Step::Add("a", 0, 0, 2), StepAnswer::Done),
            (Step::Add("mm", 0, 0, 1), StepAnswer::Done),
            (Step::Open, StepAnswer::Done),
            (
                Step::Check(
                    "[\"doc\",\"a\",2,[[\"p\",2]]]\n[\"doc\",\"m\",1,[[\"p\",1]]]\n[\"doc\",\"mm\",1,[[\"p\",1]]]\n[\"doc\",\"z\",1,[[\"p\",1]]]\n[\"epoch\",0]\n",
                ),
                StepAnswer::Done,
            ),
        ],
    },
    // The log has 1, 2, 3, 5. The first entry of the batch 3, 5 fits and the second does not:
    // nothing of it stays, and 3 may come again.
    Case {
        name: "refused_in_the_middle",
        log: Log::Numbered(5, 4),
        steps: &[
            (Step::Open, StepAnswer::Done),
            (Step::Add("d", 0, 0, 2), StepAnswer::Done),
            (Step::Add("d", 2, 2, 4), REFUSED),
            (Step::Add("e", 0, 2, 4), REFUSED),
            (Step::Load("d"), StepAnswer::Rows(2)),
            (Step::Docs, StepAnswer::Rows(1)),
            (Step::Add("d", 2, 2, 3), StepAnswer::Done),
            (Step::Open, StepAnswer::Done),
            (Step::Load("d"), StepAnswer::Rows(3)),
        ],
    },
    Case {
        name: "batch_too_long",
        log: Log::Numbered(257, 0),
        steps: &[
            (Step::Open, StepAnswer::Done),
            (Step::Add("d", 0, 0, 257), REFUSED),
            (Step::Add("d", 0, 0, 256), StepAnswer::Done),
            (Step::Add("d", 256, 256, 257), StepAnswer::Done),
            (Step::Open, StepAnswer::Done),
            (Step::Load("d"), StepAnswer::Rows(257)),
        ],
    },
    Case {
        name: "last_epoch",
        log: Log::Numbered(0, 0),
        steps: &[
            (Step::Open, StepAnswer::Done),
            (
                Step::Run("UPDATE meta SET value = 9999998 WHERE name = 'epoch'"),
                StepAnswer::Done,
            ),
            (Step::Open, StepAnswer::Done),
            (Step::Up, StepAnswer::Number(9_999_999)),
            (Step::Up, REFUSED),
            (Step::Epoch, StepAnswer::Number(9_999_999)),
            (Step::Open, StepAnswer::Done),
            (Step::Epoch, StepAnswer::Number(9_999_999)),
        ],
    },
    // Tables that are not the stored log's stay, and the stored log lives beside them.
    Case {
        name: "further_tables",
        log: Log::Numbered(3, 0),
        steps: &[
            (
                Step::Run("CREATE TABLE note (id INTEGER PRIMARY KEY, size INTEGER) STRICT"),
                StepAnswer::Done,
            ),
            (
                Step::Run("INSERT INTO note (size) VALUES (41)"),
                StepAnswer::Done,
            ),
            (Step::Open, StepAnswer::Done),
            (Step::Up, StepAnswer::Number(1)),
            (Step::Add("d", 0, 0, 3), StepAnswer::Done),
            (Step::Open, StepAnswer::Done),
            (Step::Epoch, StepAnswer::Number(1)),
            (Step::Load("d"), StepAnswer::Rows(3)),
            (Step::Ask("SELECT size FROM note"), StepAnswer::Number(41)),
        ],
    },
    // Rows of several documents that were written in turn, more than are read ahead at once.
    Case {
        name: "documents_in_turn",
        log: Log::Numbered(256, 0),
        steps: &[
            (Step::Open, StepAnswer::Done),
            (Step::Add("b", 0, 0, 100), StepAnswer::Done),
            (Step::Add("c", 0, 0, 1), StepAnswer::Done),
            (Step::Add("a", 0, 0, 70), StepAnswer::Done),
            (Step::Add("b", 100, 100, 256), StepAnswer::Done),
            (Step::Add("a", 70, 70, 200), StepAnswer::Done),
            (Step::Open, StepAnswer::Done),
            (Step::Docs, StepAnswer::Rows(3)),
            (Step::Load("a"), StepAnswer::Rows(200)),
            (Step::Load("b"), StepAnswer::Rows(256)),
            (Step::Load("c"), StepAnswer::Rows(1)),
        ],
    },
];

#[test]
fn kept(rt: HostRuntime) {
    all_answer(&rt, rt.alloc(), &KEPT);
}
