//! Accepts connections over TCP at a host and a port.
ghost use Rattle.std.specs.Prelude.{◌≡◌, IfSome};
ghost use Rattle.fix_net.specs.Adapters.{tcp_ear_faults};

use crate::TcpLink;
use fix_host::{Ear, MakeFault};
use std::alloc::Global;
use std::io::ErrorKind;
use std::net::{Net, TcpListener, TcpStream};

/// What takes connections over TCP.
#[derive(Drop)]
pub struct TcpEar {
    listener: TcpListener,
    faults: u64,
}

impl TcpEar {
    /// Takes connections at the port, on the interface that the host names. None is that the system refused it: the
    /// host isn't one of its own, or another program has the port.
    pub fn listen<R: Net<Listener = TcpListener, Stream = TcpStream>>(
        rt: &R,
        host: &str,
        port: u16,
    ) -> Option<TcpEar>
        ensures { IfSome result (λ ear. tcp_ear_faults ear ≡ 0) }
    {
        let listener = TcpListener::bind(rt, (host, port)).ok()?;
        Some(TcpEar {
            listener,
            faults: 0,
        })
    }

    /// The port that it has, which the system chose where it was asked for port 0.
    pub fn port(&self) -> Option<u16> {
        let addr = self.listener.local_addr().ok()?;
        Some(addr.port())
    }
}

impl Ear for TcpEar {
    ghost use Rattle.fix_net.specs.Adapters.{tcp_ear_faults};

    type Link = TcpLink<TcpStream>;

    ghost ear_faults = { tcp_ear_faults };

    // A connection that ended before it was accepted is no fault of the ear: the next one is accepted.
    fn accept(&mut self, _alloc: Global) -> Result<TcpLink<TcpStream>, MakeFault> {
        match next_link(&self.listener) {
            Some(link) => Ok(link),
            None => {
                self.faults = self.faults.saturating_add(1);
                Err(MakeFault::Failed)
            }
        }
    }
}

// The next connection that can be used. None is that the system refuses to accept any.
fn next_link(listener: &TcpListener) -> Option<TcpLink<TcpStream>> {
    for _ in 0..u64::MAX {
        match listener.accept() {
            Ok((stream, _)) => {
                if let Some(link) = TcpLink::new(stream) {
                    return Some(link);
                }
            }
            Err(e) => match e.kind() {
                ErrorKind::ConnectionAborted
                | ErrorKind::ConnectionReset
                | ErrorKind::Interrupted => {}
                _ => return None,
            },
        }
    }
    None
}
