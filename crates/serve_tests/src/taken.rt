//! What is taken over from a journal.
ghost use Rattle.std.specs.Prelude.{◌^◌, ◌<◌};

use crate::journals::{HEAD, JOURNAL, chained, follow};
use rams_model::Note;
use server_hub::{At, Heard, Hub, HubAnswer};
use std::alloc::Global;
use std::process::Abort;
use std::rt::HostRuntime;
use std::test::Fail;
use takeover::standby::Standby;
use test_fixtures::test_calls::let_go;

/// A journal, and what the channels answer to a tick that take over behind it; nothing where none is taken
/// over.
#[derive(Clone, Copy)]
struct Row {
    name: &'static str,
    front: &'static str,
    text: &'static str,
    want: Option<&'static [Noted]>,
}

/// A channel, its notes, and how many datagrams it sends.
type Noted = (u16, &'static [Note], usize);

const BURST: &[Noted] = &[(
    7,
    &[Note::Burst {
        client: 5,
        n: 65546,
        seq: 500,
    }],
    1,
)];

const QUIET: &[Noted] = &[(7, &[], 0)];

const ROWS: &[Row] = &[
    Row {
        name: "a part of a tick",
        front: JOURNAL,
        text: "ti",
        want: Some(BURST),
    },
    Row {
        name: "a whole tick",
        front: JOURNAL,
        text: "tick\n",
        want: Some(QUIET),
    },
    Row {
        name: "`end`, and a tick behind it",
        front: JOURNAL,
        text: "end\ntick\n",
        want: Some(BURST),
    },
    Row {
        name: "no event",
        front: HEAD,
        text: "",
        want: Some(QUIET),
    },
    Row {
        name: "the head line alone",
        front: "",
        text: "rams-trace 1 tick 10 link 100000\n",
        want: None,
    },
    Row {
        name: "a line that is refused",
        front: JOURNAL,
        text: "live 7 0\n",
        want: None,
    },
];

/// This is what the channels answer.
fn are_noted(answers: &[At], want: &[Noted]) -> bool {
    answers.len() == want.len()
        && answers.iter().zip(want).all(|(at, (id, notes, orders))| {
            at.id == *id
                && at.answer.notes.as_slice() == *notes
                && at.answer.orders.len() == *orders
        })
}

/// This is what they all answer.
fn are_answers(answer: &HubAnswer, want: &[Noted]) -> bool {
    match answer {
        HubAnswer::Answers(answers) => are_noted(answers, want),
        _ => false,
    }
}

/// This is what they answer to a tick.
fn is_ticked(alloc: Global, hub: &mut Hub, want: &[Noted]) -> Result<bool, Fail>
    requires { hub.old.calls < 2 ^ 40 }
{
    match hub.hear(alloc, Heard::Tick) {
        Ok(answer) => {
            let is_so = are_answers(&answer, want);
            let_go(answer);
            Ok(is_so)
        }
        Err(_) => Err(Fail::new("no memory")),
    }
}

/// The hub answers so to a tick; none is wanted where nothing is to be taken over.
fn is_wanted(alloc: Global, hub: &mut Hub, want: Option<&[Noted]>) -> Result<bool, Fail>
    requires { hub.old.calls < 2 ^ 40 }
{
    match want {
        Some(want) => is_ticked(alloc, hub, want),
        None => Ok(false),
    }
}

/// This is taken over from a text that is read in pieces of at most so many bytes.
fn is_taken(alloc: Global, row: &Row, size: usize) -> Result<bool, Fail> {
    let text = chained(alloc, row.front, row.text)?;
    let standby = Standby::new(alloc);
    let Ok(mut standby) = standby else {
        let_go(text);
        return Err(Fail::new("no memory"));
    };
    let _ = follow(alloc, &mut standby, &text, size.max(1));
    let_go(text);
    match standby.take_over() {
        Ok(mut hub) => {
            let is_so = is_wanted(alloc, &mut hub, row.want);
            let_go(hub);
            is_so
        }
        Err(standby) => {
            let_go(standby);
            Ok(row.want.is_none())
        }
    }
}

fn check(rt: &impl Abort, alloc: Global, row: &Row, size: usize) -> Result<(), Fail> {
    let is_so = is_taken(alloc, row, size)?;
    assert!(rt; is_so, "{}, in pieces of {size}", row.name);
    Ok(())
}

#[test]
fn the_same_is_taken_over_whatever_the_pieces(rt: HostRuntime) -> Result<(), Fail> {
    for row in ROWS {
        check(&rt, rt.alloc(), row, 1)?;
        check(&rt, rt.alloc(), row, 50)?;
        check(&rt, rt.alloc(), row, 5_000)?;
    }
    Ok(())
}
