//! The format from before there were additions: migrated where it is opened, and refused with an
//! addition in it.
use super::steps::{Case, Log, REFUSED, Step, StepAnswer, all_answer};

const TABLES: &str =
    "CREATE TABLE meta (name TEXT NOT NULL PRIMARY KEY, value INTEGER NOT NULL) STRICT;
     CREATE TABLE entry (doc TEXT NOT NULL, place INTEGER NOT NULL, text TEXT NOT NULL, PRIMARY KEY (doc, place)) STRICT;
     INSERT INTO meta (name, value) VALUES ('format', 1), ('epoch', 7)";

const FORMAT: &str = "SELECT value FROM meta WHERE name = 'format'";

static FORMATS: [Case<'static>; 2] = [
    Case {
        name: "old_format_raised",
        log: Log::Numbered(3, 0),
        steps: &[
            (Step::Run(TABLES), StepAnswer::Done),
            (
                Step::Run(
                    r#"INSERT INTO entry (doc, place, text) VALUES ('d', 1, '["op",[1,"p"],[],[[["m",0]],"k"],["assign",1]]')"#,
                ),
                StepAnswer::Done,
            ),
            (Step::Open, StepAnswer::Done),
            (Step::Epoch, StepAnswer::Number(7)),
            (Step::Load("d"), StepAnswer::Rows(1)),
            (Step::Ask(FORMAT), StepAnswer::Number(2)),
            (
                Step::Ask(
                    r#"SELECT count(*) FROM entry WHERE doc = 'd' AND place = 1 AND text = '["op",[1,"p"],[],[[["m",0]],"k"],["assign",1]]'"#,
                ),
                StepAnswer::Number(1),
            ),
            (Step::Open, StepAnswer::Done),
            (Step::Up, StepAnswer::Number(8)),
            (Step::Add("d", 1, 1, 3), StepAnswer::Done),
            (Step::Open, StepAnswer::Done),
            (Step::Epoch, StepAnswer::Number(8)),
            (Step::Load("d"), StepAnswer::Rows(3)),
        ],
    },
    // The refused database is as it was; with the new format written by hand it is a stored log.
    Case {
        name: "old_format_has_no_additions",
        log: Log::Numbered(0, 0),
        steps: &[
            (Step::Run(TABLES), StepAnswer::Done),
            (
                Step::Run(
                    r#"INSERT INTO entry (doc, place, text) VALUES ('d', 1, '["op",[1,"p"],[],[[["m",0]],"k"],["add",1]]')"#,
                ),
                StepAnswer::Done,
            ),
            (Step::Open, REFUSED),
            (Step::Ask(FORMAT), StepAnswer::Number(1)),
            (
                Step::Ask("SELECT count(*) FROM entry"),
                StepAnswer::Number(1),
            ),
            (
                Step::Run("UPDATE meta SET value = 2 WHERE name = 'format'"),
                StepAnswer::Done,
            ),
            (Step::Open, StepAnswer::Done),
            (Step::Epoch, StepAnswer::Number(7)),
            (Step::Docs, StepAnswer::Rows(1)),
        ],
    },
];

#[test]
fn formats(rt: HostRuntime) {
    all_answer(&rt, rt.alloc(), &FORMATS);
}
