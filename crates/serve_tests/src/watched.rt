//! What is told of a server while it serves.
use crate::memory::{ACCESS_POINT, EIGHT, HEAD, SEVEN, sink_of, wire_of};
use crate::turn_row::{Row, serve_row};
use crate::turns::{JOURNAL, LOSS, UNSERVED};
use ram_io::MemSink;
use rams_model::LineFault;
use serve_loop::Watch;
use server_hub::{Heard, HubAnswer};
use std::alloc::Global;
use std::cell::Cell;
use std::process::Abort;
use std::rt::HostRuntime;
use std::test::Fail;
use test_fixtures::test_calls::let_go;

/// What was told: how many channels opened, and the last of them with its ports; how many events came;
/// how many ticks were late; and the line of a refused head.
#[derive(Clone, Copy, PartialEq, Eq)]
struct Told {
    opened: u32,
    last: (u16, u16, u16),
    heard: u32,
    late: u32,
    refused: u64,
}

const NOTHING: Told = Told {
    opened: 0,
    last: (0, 0, 0),
    heard: 0,
    late: 0,
    refused: 0,
};

/// Notes what it is told.
#[derive(Drop)]
struct Notes(Cell<Told>);

impl Watch for Notes {
    fn opens(&self, id: u16, live: u16, feedback: u16) {
        let told = self.0.get();
        self.0.set(Told {
            opened: told.opened.saturating_add(1),
            last: (id, live, feedback),
            ..told
        });
    }

    fn refuses(&self, line: u64, _fault: LineFault) {
        let told = self.0.get();
        self.0.set(Told {
            refused: line,
            ..told
        });
    }

    fn hears(&self, _heard: Heard<'_>, _answer: &HubAnswer) {
        let told = self.0.get();
        self.0.set(Told {
            heard: told.heard.saturating_add(1),
            ..told
        });
    }

    fn lags(&self) {
        let told = self.0.get();
        self.0.set(Told {
            late: told.late.saturating_add(1),
            ..told
        });
    }
}

const WATCHED: &[(Row, Told)] = &[
    (
        JOURNAL,
        Told {
            opened: 1,
            last: (7, 5000, 5001),
            heard: 3,
            late: 0,
            refused: 0,
        },
    ),
    (
        Row {
            name: "two channels",
            source: &[HEAD, EIGHT, SEVEN, "end"],
            arrivals: &[
                (9, 5000, ACCESS_POINT),
                (6, 5001, LOSS),
                (9, 5002, ACCESS_POINT),
            ],
            ..JOURNAL
        },
        Told {
            opened: 2,
            last: (7, 5002, 5003),
            heard: 4,
            late: 0,
            refused: 0,
        },
    ),
    (
        Row {
            name: "a late tick, and one in time",
            arrivals: &[],
            moments: &[0, 35, 44, 45],
            ..JOURNAL
        },
        Told {
            opened: 1,
            last: (7, 5000, 5001),
            heard: 2,
            late: 1,
            refused: 0,
        },
    ),
    (
        Row {
            name: "a head that is refused",
            source: &[HEAD, "channels", SEVEN, "end"],
            ..UNSERVED
        },
        Told {
            opened: 0,
            last: (0, 0, 0),
            heard: 0,
            late: 0,
            refused: 2,
        },
    ),
];

/// What is told while a server with this sink serves; no call of its wire fails.
fn tells(alloc: Global, row: &Row, sink: &mut MemSink) -> Result<Told, Fail> {
    let mut wire = wire_of(alloc, row.arrivals, &[])?;
    let notes = Notes(Cell::new(NOTHING));
    let served = serve_row(alloc, row, sink, &mut wire, &notes);
    let_go(wire);
    let _ = served?;
    Ok(notes.0.get())
}

fn check_told(rt: &impl Abort, alloc: Global, row: &Row, wanted: Told) -> Result<(), Fail> {
    let mut sink = sink_of(alloc, &[])?;
    let told = tells(alloc, row, &mut sink);
    let_go(sink);
    assert!(rt; told? == wanted, "{}", row.name);
    Ok(())
}

#[test]
fn servers_tell_what_they_do(rt: HostRuntime) -> Result<(), Fail> {
    for (row, wanted) in WATCHED {
        check_told(&rt, rt.alloc(), row, *wanted)?;
    }
    Ok(())
}
