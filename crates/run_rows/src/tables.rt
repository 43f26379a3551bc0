//! The runs of all rows, and of the traces that are too long for a row.
use crate::row::{check, check_row};
use crate::{
    bounds, budgets, bursts, channels, live, load, queues, refusals, repairs, requests, stops,
    worlds,
};
use std::alloc::{AllocError, Global};
use std::process::Abort;
use std::test::Fail;
use trace_rows::{Command, MEET, RUN, Row, let_go};

/// Each row's trace has its book.
fn check_rows(rt: &impl Abort, alloc: Global, command: Command, rows: &[Row]) -> Result<(), Fail> {
    for row in rows {
        check_row(rt, alloc, command, row)?;
    }
    Ok(())
}

const PACKETS_AND_REQUESTS: &[&[Row]] = &[live::ROWS, requests::ROWS];

#[test]
fn packets_and_requests(rt: HostRuntime) -> Result<(), Fail> {
    for rows in PACKETS_AND_REQUESTS {
        check_rows(&rt, rt.alloc(), RUN, rows)?;
    }
    Ok(())
}

const BURSTS_AND_THEIR_ENDS: &[&[Row]] = &[requests::BUFFER_FILL, bursts::ROWS, bursts::JOIN_TIMES];

#[test]
fn bursts_and_their_ends(rt: HostRuntime) -> Result<(), Fail> {
    for rows in BURSTS_AND_THEIR_ENDS {
        check_rows(&rt, rt.alloc(), RUN, rows)?;
    }
    Ok(())
}

const STOPS_AND_REPAIRS: &[&[Row]] = &[stops::ROWS, repairs::ROWS, bounds::ROWS];

#[test]
fn stops_and_repairs(rt: HostRuntime) -> Result<(), Fail> {
    for rows in STOPS_AND_REPAIRS {
        check_rows(&rt, rt.alloc(), RUN, rows)?;
    }
    Ok(())
}

const SHARES_AND_DEPTHS: &[&[Row]] = &[budgets::ROWS, budgets::DEPTHS, budgets::SWELLS];

#[test]
fn shares_and_depths(rt: HostRuntime) -> Result<(), Fail> {
    for rows in SHARES_AND_DEPTHS {
        check_rows(&rt, rt.alloc(), RUN, rows)?;
    }
    Ok(())
}

const CHANNELS_AND_REFUSALS: &[&[Row]] = &[channels::ROWS, refusals::ROWS];

#[test]
fn channels_and_refusals(rt: HostRuntime) -> Result<(), Fail> {
    for rows in CHANNELS_AND_REFUSALS {
        check_rows(&rt, rt.alloc(), RUN, rows)?;
    }
    Ok(())
}

const SET_TOPS: &[&[Row]] = &[
    worlds::HANDOVERS,
    worlds::FIRSTS,
    worlds::REFUSALS,
    worlds::REFUSED,
];

#[test]
fn set_tops(rt: HostRuntime) -> Result<(), Fail> {
    for rows in SET_TOPS {
        check_rows(&rt, rt.alloc(), MEET, rows)?;
    }
    Ok(())
}

/// A trace that is written out.
#[derive(Clone, Copy)]
enum Long {
    SteadyLoad,
    FullQueues,
    MostClients,
    MostPackets,
    /// So many channels behind the first, and the book's last line.
    Channels(u16, &'static str),
    FarAhead,
}

const LONG: &[(Command, &str, Long)] = &[
    (RUN, "steady load", Long::SteadyLoad),
    (RUN, "full queues", Long::FullQueues),
    (RUN, "most clients", Long::MostClients),
    (RUN, "most packets", Long::MostPackets),
    (RUN, "64 channels", Long::Channels(63, "done 0")),
    (RUN, "65 channels", Long::Channels(64, "refused 66 rule-5")),
    (MEET, "beyond", Long::FarAhead),
];

/// The trace and its book.
fn texts_of(alloc: Global, long: Long) -> Result<(String, String), AllocError> {
    match long {
        Long::SteadyLoad => load::steady_load(alloc),
        Long::FullQueues => queues::full_queues(alloc),
        Long::MostClients => bounds::most_clients(alloc),
        Long::MostPackets => bounds::most_packets(alloc),
        Long::Channels(count, line) => channels::most_channels(alloc, count, line),
        Long::FarAhead => worlds::far_ahead(alloc),
    }
}

#[test]
fn each_long_trace_has_its_book(rt: HostRuntime) -> Result<(), Fail> {
    for (command, name, long) in LONG {
        let (trace, book) = texts_of(rt.alloc(), *long)?;
        let checked = check(&rt, rt.alloc(), *command, name, &trace, &book);
        let_go(trace);
        let_go(book);
        checked?;
    }
    Ok(())
}
