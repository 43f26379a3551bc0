//! Payloads of TS packets, written by hand (ISO/IEC 13818-1, 2.4.3).
use crate::fixtures::same;
use channel_cache::ts_access::has_access;
use std::alloc::{AllocError, Global};
use std::process::Abort;
use std::test::Fail;
use test_fixtures::test_calls::let_go;

// The first six bytes of a TS packet: sync byte, packet identifier 0, control byte, length of the
// adaptation field, its flags.
const FLAGGED: [u8; 6] = [0x47, 0x40, 0x00, 0x20, 0x01, 0x40];

// A payload, and whether it has the flag.
type Row = (&'static [(&'static [u8], usize)], bool);

// Payloads, each as the first bytes of its pieces and how long they are with the zeros behind, and
// whether one of their packets has the flag.
const PAYLOADS: &[Row] = &[
    (&[(&FLAGGED, 188)], true),
    // no adaptation field
    (&[(&[0x47, 0x40, 0x00, 0x10, 0x01, 0x40], 188)], false),
    // one without bytes
    (&[(&[0x47, 0x40, 0x00, 0x20, 0x00, 0x40], 188)], false),
    // all flags but this one, and all
    (&[(&[0x47, 0x40, 0x00, 0x20, 0x01, 0xbf], 188)], false),
    (&[(&[0x47, 0x40, 0x00, 0x20, 0x01, 0xff], 188)], true),
    // an adaptation field and a payload
    (&[(&[0x47, 0x40, 0x00, 0x30, 0x01, 0x40], 188)], true),
    (&[(&[0x47, 0x40, 0x00, 0xff, 0xff, 0x40], 188)], true),
    (&[(&[0x47, 0x40, 0x00, 0xdf, 0x01, 0x40], 188)], false),
    // another byte in place of the sync byte
    (&[(&[0x46, 0x40, 0x00, 0x20, 0x01, 0x40], 188)], false),
    (&[], false),
    // a shorter rest isn't looked at
    (&[(&FLAGGED, 187)], false),
    (&[(&[], 188), (&FLAGGED, 187)], false),
    (&[(&FLAGGED, 6)], false),
    // the second and the seventh packet
    (&[(&[], 188), (&FLAGGED, 188)], true),
    (&[(&[], 1128), (&FLAGGED, 188)], true),
    (&[(&FLAGGED, 188), (&[], 100)], true),
    // not where a packet begins
    (&[(&[], 1), (&FLAGGED, 376)], false),
];

// Appends a piece: its first bytes, and zeros up to its length.
fn add_piece(bytes: &mut Vec<u8>, head: &[u8], len: usize) -> Result<(), AllocError> {
    bytes.extend_from_slice(head)?;
    for _ in head.len()..len {
        bytes.push(0)?;
    }
    Ok(())
}

// The bytes of a payload.
fn payload(alloc: Global, pieces: &[(&[u8], usize)]) -> Result<Vec<u8>, AllocError> {
    let mut bytes = Vec::new(alloc);
    for (head, len) in pieces {
        add_piece(&mut bytes, head, *len)?;
    }
    Ok(bytes)
}

fn expect(rt: &impl Abort, alloc: Global, rows: &[Row]) -> Result<(), Fail> {
    for (place, (pieces, want)) in rows.iter().enumerate() {
        let bytes = payload(alloc, pieces)?;
        let has = has_access(&bytes);
        let_go(bytes);
        same(rt, &has, want, &place);
    }
    Ok(())
}

#[test]
fn a_flag_in_a_whole_packet_is_found(rt: HostRuntime) -> Result<(), Fail> {
    expect(&rt, rt.alloc(), PAYLOADS)
}
