//! Opens a connection over TCP to a host and a port, within a bound of time for each of the host's addresses.
ghost use Rattle.std.specs.Prelude.{◌≡◌, IfSome};
ghost use Rattle.fix_net.specs.Adapters.{tcp_link_of};

use crate::TcpLink;
use std::net::{Net, SocketAddr, TcpListener, TcpStream, ToSocketAddrs};
use std::time::Duration;

/// How long the system may try one address, in seconds.
const DIAL_SECONDS: u64 = 10;

/// A connection to the first of the host's addresses that takes one. None is that the host has no address, or that none
/// takes a connection in ten seconds.
pub fn dial<R: Net<Listener = TcpListener, Stream = TcpStream>>(
    rt: &R,
    host: &str,
    port: u16,
) -> Option<TcpLink<TcpStream>>
    ensures { IfSome result (λ link. (tcp_link_of link).faults ≡ 0) }
{
    let addrs = (host, port).to_socket_addrs(rt).ok()?;
    for addr in addrs {
        if let Some(link) = dial_address(rt, addr) {
            return Some(link);
        }
    }
    None
}

// A connection to the address.
fn dial_address<R: Net<Listener = TcpListener, Stream = TcpStream>>(
    rt: &R,
    addr: SocketAddr,
) -> Option<TcpLink<TcpStream>>
    ensures { IfSome result (λ link. (tcp_link_of link).faults ≡ 0) }
{
    let stream = TcpStream::connect_timeout(rt, &addr, Duration::from_secs(DIAL_SECONDS)).ok()?;
    TcpLink::new(stream)
}
