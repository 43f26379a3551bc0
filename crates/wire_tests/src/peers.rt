//! A wire on loopback, and its peers.
ghost use Rattle.std.specs.Prelude.{◌≤◌};

use std::net::{Ipv4Addr, SocketAddr, UdpSocket};
use std::process;
use std::test::Fail;
use std::time::Duration;
use test_fixtures::test_calls::done;
use udp_edge::UdpWire;

/// The first of 32 ports that few other runs use, each below those that the system gives away.
pub fn first_port(rt: &HostRuntime) -> u16
    ensures low { 16_000 ≤ result }
    ensures high { result ≤ 32_000 }
{
    16_000 + (process::id(rt.process()) % 500) as u16 * 32
}

/// A wire of two channels from this port on, which waits for at most so many ms.
pub fn wire(rt: &HostRuntime, port: u16, wait_ms: u32) -> Result<UdpWire<HostRuntime>, Fail>
    requires low { 16_000 ≤ port }
    requires high { port ≤ 33_000 }
{
    done(UdpWire::bind(rt, rt.alloc(), port, 2, wait_ms))
}

/// A socket of a peer, at a port that the system picks, that waits for at most a second.
pub fn peer(rt: &HostRuntime) -> Result<UdpSocket, Fail> {
    let socket = UdpSocket::bind(rt, local(0))?;
    socket.set_read_timeout(Some(Duration::from_secs(1)))?;
    Ok(socket)
}

/// This port of 127.0.0.1.
pub fn local(port: u16) -> SocketAddr {
    SocketAddr::from((Ipv4Addr::LOCALHOST, port))
}

/// This port of 127.0.0.1 as the number of a client.
pub fn client(port: u16) -> u64 {
    0x7f00_0001 << 16 | u64::from(port)
}
