//! Addresses of clients as numbers.
ghost use Rattle.std.specs.Prelude.{◌≡◌, ◌^◌, ◌<◌, ◌≤◌, ◌↔◌, IfSome, IsNone};
ghost use Rattle.udp_edge.specs.{address_number};

use std::net::{Ipv4Addr, SocketAddrV4};

// How many ports an address has.
const PORTS: u64 = 65_536;

// The number of an address and port: the IPv4 address times 65536, plus the port.
pub(crate) fn number_of(address: SocketAddrV4) -> u64
    ensures value { result ≡ address_number address }
    ensures below { result < 2 ^ 48 }
{
    u64::from(address.ip().to_bits()) * PORTS + u64::from(address.port())
}

// The address and port of a number, if it has one.
pub(crate) fn address_of(number: u64) -> Option<SocketAddrV4>
    ensures value { IfSome result (λ address. address_number address ≡ number) }
    ensures none { IsNone result ↔ (2 ^ 48 ≤ number) }
{
    let Ok(ip) = u32::try_from(number / PORTS) else {
        return None;
    };
    let port = (number % PORTS) as u16;
    Some(SocketAddrV4::new(Ipv4Addr::from_bits(ip), port))
}
