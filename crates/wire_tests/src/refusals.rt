//! What a wire refuses.
use crate::peers::{client, first_port, peer, wire};
use ram_io::{Failed, Wire};
use std::test::Fail;
use udp_edge::{BindFault, FailedWire, UdpWire};

// A number that has no address.
const NOBODY: u64 = 1 << 48;

/// Ports of which one is bound are refused, and they are free once the wire is gone.
#[test]
fn bound_ports_are_refused(rt: HostRuntime) -> Result<(), Fail> {
    let first = first_port(&rt) + 24;
    let held = wire(&rt, first, 1)?;
    for port in [first, first - 1, first - 3, first + 3] {
        let again = UdpWire::bind(&rt, rt.alloc(), port, 2, 1);
        assert!(rt; again.map(|_| ()) == Err(BindFault::Failed), "port {port}");
    }
    drop(held);
    let _ = wire(&rt, first, 1)?;
    Ok(())
}

/// A datagram from another's port, to no address, or too long for UDP is a fault, and later ones
/// go out.
#[test]
fn datagrams_that_cant_be_sent_are_faults(rt: HostRuntime) -> Result<(), Fail> {
    let first = first_port(&rt) + 28;
    let mut wire = wire(&rt, first, 1)?;
    let to = client(peer(&rt)?.local_addr()?.port());
    let long = Vec::from_elem(rt.alloc(), 7u8, 65_508)?;
    assert!(rt; wire.send(to, first + 4, b"late") == Err(Failed));
    assert!(rt; wire.send(to, first - 1, b"late") == Err(Failed));
    assert!(rt; wire.send(NOBODY, first, b"late") == Err(Failed));
    assert!(rt; wire.send(to, first, &long) == Err(Failed));
    assert!(rt; wire.send(to, first, b"late") == Ok(()));
    Ok(())
}

/// Each call of the wire in place of one that couldn't be bound is a fault.
#[test]
fn a_failed_wire_fails(rt: HostRuntime) {
    let mut wire = FailedWire::new();
    for _ in 0..2 {
        assert!(rt; wire.receive(&mut [0; 2_000]) == Err(Failed));
        assert!(rt; wire.send(client(9), 5_000, b"late") == Err(Failed));
    }
}
