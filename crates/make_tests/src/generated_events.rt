//! The events of a seed, one after another; the bytes are those of an independent model.
use generated::trace_gen::{Event, Kind, Made, config_of, event_into, event_of};
use rams_model::Access;
use std::test::Fail;
use test_fixtures::test_calls::done;

/// What client 25 sends in the first four blocks of seed 7: a RAMS-R and a RAMS-T without TLVs (RFC
/// 6285, 7.2 and 7.4), and between them a generic NACK (RFC 4585, 6.2.1).
const DATAGRAMS: [u8; 48] = [
    0x86, 0xcd, 0, 3, // v=2, p=0, FMT 6 (RAMS), RTPFB, length 16
    0, 0, 0, 25, // sender
    0x11, 0x22, 0x33, 0x44, // media source
    1, 0, 0, 0, // SFMT 1
    0x81, 0xcd, 0, 3, // v=2, p=0, FMT 1 (NACK), RTPFB, length 16
    0, 0, 0, 25, // sender
    0x11, 0x22, 0x33, 0x44, // media source
    0xff, 0xa8, 0, 0, // PID 65448, BLP 0
    0x86, 0xcd, 0, 3, // v=2, p=0, FMT 6 (RAMS), RTPFB, length 16
    0, 0, 0, 25, // sender
    0x11, 0x22, 0x33, 0x44, // media source
    3, 0, 0, 0, // SFMT 3
];

/// How long the packets of the first block of seed 7 are, with their headers.
const LENGTHS: [usize; 10] = [790, 143, 265, 1185, 157, 631, 976, 276, 351, 1098];

/// The header of the first (RFC 3550, 5.1).
const HEADER: [u8; 12] = [
    0x80, 0xa1, 0, 0, // v=2, p=0, x=0, cc=0, marker, type 33, sequence number 0
    0, 0, 0, 0, // timestamp
    0x11, 0x22, 0x33, 0x44, // SSRC
];

#[test]
fn settings_are_those_of_the_trace(rt: HostRuntime) -> Result<(), Fail> {
    let config = config_of();
    let c = config.channel();
    assert!(rt; (config.tick_ms(), c.id, c.ssrc, c.pt, c.rtx) == (10, 1, 0x11223344, 33, 99));
    assert!(rt;
        (c.ring, c.window, c.access, c.share, c.reserve)
            == (1024, 8, Access::Marker, 200_000, 20_000)
    );
    assert!(rt;
        (c.burst, c.declared, c.minwire, c.limit, c.idle, c.clients)
            == (60_000, 20_000, 142, 400, 400, 64)
    );
    Ok(())
}

#[test]
fn first_packets(rt: HostRuntime) -> Result<(), Fail> {
    let mut page = Vec::new(rt.alloc());
    let mut at = Made::new(7);
    for length in LENGTHS {
        let kind = done(event_into(4, &mut at, &mut page))?;
        assert!(rt; (kind, page.len()) == (Some(Kind::Live), length));
    }
    assert!(rt; done(event_into(4, &mut at, &mut page))? == Some(Kind::Tick));
    assert!(rt; done(event_into(1, &mut at, &mut page))? == None);
    Ok(())
}

#[test]
fn four_blocks(rt: HostRuntime) -> Result<(), Fail> {
    let mut page = Vec::new(rt.alloc());
    let mut datagrams = Vec::new(rt.alloc());
    let mut ticks = Vec::new(rt.alloc());
    let mut at = Made::new(7);
    for i in 0..47u8 {
        match done(event_into(4, &mut at, &mut page))? {
            Some(Kind::Feedback { client: 25 }) => datagrams.extend_from_slice(&page)?,
            Some(Kind::Tick) => ticks.push(i)?,
            other => assert!(rt; other == Some(Kind::Live)),
        }
    }
    assert!(rt; done(event_into(4, &mut at, &mut page))? == None);
    assert!(rt; ticks.as_slice() == [10, 22, 34, 46].as_slice());
    assert!(rt; datagrams.as_slice() == DATAGRAMS.as_slice());
    Ok(())
}

#[test]
fn an_event_with_its_bytes(rt: HostRuntime) -> Result<(), Fail> {
    let alloc = rt.alloc();
    let mut at = Made::new(7);
    let Some(Event::Live(packet)) = done(event_of(alloc, 7, 1, &mut at))? else {
        assert!(rt; false);
        return Ok(());
    };
    assert!(rt; packet.bytes().len() == 790);
    assert!(rt; packet.bytes().starts_with(&HEADER));
    let none = done(event_of(alloc, 7, 0, &mut at))?;
    assert!(rt; none.is_none());
    Ok(())
}
