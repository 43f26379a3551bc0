//! Tables whose clients and entries are told by hand.
use crate::fixtures::same;
use client_table::{AdmitFault, Burst, Entry, Info, Table};
use std::alloc::Global;
use std::process::Abort;
use std::test::Fail;
use test_fixtures::test_calls::let_go;

// The ticks after which an idle client may be due.
const LIMIT: u32 = 3;

// Most clients of a table, and those that fill it.
type Full = (u32, &'static [u32]);

const FULL: &[Full] = &[(0, &[]), (1, &[5]), (3, &[2, 5, 9])];

// Known clients in the order in which they came, and by rising number.
type Risen = (&'static [u32], &'static [u32]);

const RISEN: &[Risen] = &[(&[], &[]), (&[7], &[7]), (&[9, 2, 5], &[2, 5, 9])];

const BURST: Burst = Burst {
    first: 65546,
    next: 65549,
    stop: Some(65560),
    rate: 4000,
    ticks: 2,
    kept: 1499,
    last: Info {
        msn: 0,
        code: 200,
        first: Some(500),
        join_ms: Some(20),
        length_ms: Some(1000),
        bps: Some(3200000),
    },
};

// A client that isn't known asks to become known, with its own number as its SSRC.
fn admit(rt: &impl Abort, table: &mut Table, client: u32) -> Result<(), AdmitFault> {
    assert!(rt; table.find(u64::from(client)).is_none());
    table.admit(u64::from(client), client, 500)
}

fn admit_all(rt: &impl Abort, table: &mut Table, clients: &[u32]) {
    for client in clients {
        same(rt, &admit(rt, table, *client), &Ok(()), client);
    }
}

// A table of at most so many clients, in which these are known.
fn table_of(rt: &impl Abort, alloc: Global, most: u32, clients: &[u32]) -> Result<Table, Fail> {
    let Ok(mut table) = Table::new(alloc, most, LIMIT) else {
        return Err(Fail::new("no memory"));
    };
    admit_all(rt, &mut table, clients);
    Ok(table)
}

// The entry of a client that was admitted.
fn admitted(ssrc: u32) -> Entry {
    Entry {
        ssrc,
        seq: 500,
        idle: 0,
        burst: None,
    }
}

// Known are these clients, as they were admitted.
fn expect_known(rt: &impl Abort, table: &Table, clients: &[u32]) {
    for (expected, (client, entry)) in clients.iter().zip(table.iter()) {
        same(rt, &client, &u64::from(*expected), expected);
        same(rt, &entry, &admitted(*expected), expected);
    }
}

// Each client leaves, once, and becomes known again.
fn expect_leave(rt: &impl Abort, table: &mut Table, clients: &[u32]) {
    for client in clients {
        let left = (
            table.remove(u64::from(*client)),
            table.remove(u64::from(*client)),
        );
        same(rt, &left, &(Some(admitted(*client)), None), client);
        same(rt, &admit(rt, table, *client), &Ok(()), client);
    }
}

// A full table takes no more: the one that came too late changes nothing, and comes in after another
// one left.
fn expect_full(rt: &impl Abort, alloc: Global, rows: &[Full]) -> Result<(), Fail> {
    for (most, known) in rows {
        let mut table = table_of(rt, alloc, *most, known)?;
        let refused = admit(rt, &mut table, 6);
        same(
            rt,
            &(refused, table.count()),
            &(Err(AdmitFault::Full), *most),
            most,
        );
        expect_known(rt, &table, known);
        expect_leave(rt, &mut table, known);
        let_go(table);
    }
    Ok(())
}

#[test]
fn full_tables(rt: HostRuntime) -> Result<(), Fail> {
    expect_full(&rt, rt.alloc(), FULL)
}

fn expect_risen(rt: &impl Abort, alloc: Global, rows: &[Risen]) -> Result<(), Fail> {
    for (place, (clients, risen)) in rows.iter().enumerate() {
        let table = table_of(rt, alloc, 4, clients)?;
        same(rt, &(table.count() as usize), &risen.len(), &place);
        expect_known(rt, &table, risen);
        let_go(table);
    }
    Ok(())
}

#[test]
fn clients_rise(rt: HostRuntime) -> Result<(), Fail> {
    expect_risen(&rt, rt.alloc(), RISEN)
}

const CLIENTS: [u32; 3] = [2, 5, 9];

// The entry of a client, where this one's was written to.
fn entry_of(client: u32, written: u32) -> Entry {
    let mut entry = admitted(client);
    if client == written {
        entry.idle = 7;
        entry.burst = Some(BURST);
    }
    entry
}

// A table of the clients, where one's entry was written to.
fn written_table(rt: &impl Abort, alloc: Global, written: u32) -> Result<Table, Fail> {
    let mut table = table_of(rt, alloc, 3, &[9, 2, 5])?;
    table.set(u64::from(written), entry_of(written, written));
    Ok(table)
}

fn expect_written(rt: &impl Abort, table: &Table, written: u32) {
    for client in CLIENTS {
        let entry = table.find(u64::from(client));
        same(rt, &entry, &Some(entry_of(client, written)), &written);
    }
}

// What is written to one client's entry stands there, and nowhere else.
#[test]
fn written_entries(rt: HostRuntime) -> Result<(), Fail> {
    for written in CLIENTS {
        let table = written_table(&rt, rt.alloc(), written)?;
        expect_written(&rt, &table, written);
        let_go(table);
    }
    Ok(())
}

// Clients in the order in which their bursts open, those whose bursts end then, one that leaves, and
// whose bursts are open after that.
type Opened = (&'static [u32], &'static [u32], u32, &'static [u32]);

const OPENED: &[Opened] = &[
    (&[], &[], 7, &[]),
    (&[5], &[], 7, &[5]),
    (&[9, 2], &[], 7, &[2, 9]),
    (&[9, 5, 2], &[5], 7, &[2, 9]),
    (&[5, 5, 7], &[9], 2, &[5]),
    (&[2, 9], &[2], 9, &[]),
];

// A burst of the client opens or ends.
fn set_burst(table: &mut Table, client: u32, burst: Option<Burst>) {
    table.set(
        u64::from(client),
        Entry {
            burst,
            ..admitted(client)
        },
    );
}

// Bursts of the clients open or end.
fn set_bursts(table: &mut Table, clients: &[u32], burst: Option<Burst>) {
    for client in clients {
        set_burst(table, *client, burst);
    }
}

// The table after these bursts opened and those ended, and the client left.
fn opened_table(
    rt: &impl Abort,
    alloc: Global,
    opened: &[u32],
    ended: &[u32],
    left: u32,
) -> Result<Table, Fail> {
    let mut table = table_of(rt, alloc, 3, &[9, 2, 5])?;
    set_bursts(&mut table, opened, Some(BURST));
    set_bursts(&mut table, ended, None);
    table.remove(u64::from(left));
    Ok(table)
}

fn count_open(table: &Table) -> usize {
    table.open_bursts().count()
}

// Open are the bursts of these clients.
fn expect_open(rt: &impl Abort, table: &Table, clients: &[u32], place: usize) {
    for (expected, (client, entry)) in clients.iter().zip(table.open_bursts()) {
        same(rt, &client, &u64::from(*expected), &place);
        same(rt, &entry.burst, &Some(BURST), &place);
    }
}

// Open are the bursts of these clients, by rising number, and no others.
#[test]
fn open_bursts(rt: HostRuntime) -> Result<(), Fail> {
    for (place, (opened, ended, left, open_then)) in OPENED.iter().enumerate() {
        let table = opened_table(&rt, rt.alloc(), opened, ended, *left)?;
        same(&rt, &count_open(&table), &open_then.len(), &place);
        expect_open(&rt, &table, open_then, place);
        let_go(table);
    }
    Ok(())
}

// The entry of a client whose burst, where it has one, kept nothing, after so many ticks.
fn later_entry(client: u32, idle: u32) -> Entry {
    let burst = if client == 5 {
        Some(Burst { kept: 0, ..BURST })
    } else {
        None
    };
    Entry {
        idle,
        burst,
        ..admitted(client)
    }
}

// Two ticks on, all are idle for two more, but for one that was heard in between; open bursts alone are
// changed.
#[test]
fn changed_entries(rt: HostRuntime) -> Result<(), Fail> {
    let mut table = opened_table(&rt, rt.alloc(), &[5], &[], 7)?;
    table.age();
    table.change(2, |entry| Entry { idle: 0, ..entry });
    table.age();
    table.change_bursts(|burst| Burst { kept: 0, ..burst });
    for (client, idle) in [(2u32, 1), (5, 2), (9, 2)] {
        let entry = table.find(u64::from(client));
        same(&rt, &entry, &Some(later_entry(client, idle)), &client);
    }
    same(&rt, &table.count(), &3, &"count");
    let_go(table);
    Ok(())
}

// The ticks so far, and the clients that may be due in the next one.
type Due = (u32, &'static [u64]);

// Client 2 is heard in tick 2, and client 9 leaves in tick 4.
const DUE: &[Due] = &[
    (0, &[]),
    (1, &[]),
    (2, &[2, 5, 9]),
    (3, &[]),
    (4, &[2]),
    (5, &[5]),
    (6, &[]),
    (7, &[2]),
];

fn expect_due(rt: &impl Abort, table: &Table, ticks: u32, clients: &[u64]) {
    let mut due = table.due_next(LIMIT);
    for client in clients {
        same(rt, &due.next(), &Some(*client), &ticks);
    }
    same(rt, &due.next(), &None, &ticks);
}

// A client is looked at where it would be due had nobody heard it, and after that where it can be due
// next.
#[test]
fn due_clients(rt: HostRuntime) -> Result<(), Fail> {
    let mut table = opened_table(&rt, rt.alloc(), &[5], &[], 7)?;
    for (ticks, clients) in DUE {
        expect_due(&rt, &table, *ticks, clients);
        table.age();
        if *ticks == 1 {
            table.change(2, |entry| Entry { idle: 0, ..entry });
        }
        if *ticks == 3 {
            table.remove(9);
        }
    }
    let_go(table);
    Ok(())
}

fn expect_all_due(rt: &impl Abort, table: &Table) {
    let mut due = table.due_next(LIMIT + 1);
    for client in CLIENTS {
        same(rt, &due.next(), &Some(u64::from(client)), &client);
    }
    same(rt, &due.next(), &None, &"all");
}

// A table that looks out for another limit gives all its clients.
#[test]
fn all_clients_due(rt: HostRuntime) -> Result<(), Fail> {
    let table = table_of(&rt, rt.alloc(), 3, &CLIENTS)?;
    expect_all_due(&rt, &table);
    let_go(table);
    Ok(())
}
