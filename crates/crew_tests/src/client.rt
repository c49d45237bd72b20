// A peer of the server, in the same process.
use std::alloc::Global;
use std::io;
use std::io::{Read, Write};
use std::net::{Ipv4Addr, Net, TcpStream};

/// What ends the replies to one request.
pub(crate) const DONE: &[u8] = b"6:statusl4:doneee";

/// A connection, and what came over it that was not asked for yet.
#[derive(Drop)]
pub(crate) struct Client {
    stream: TcpStream,
    unread: Vec<u8>,
}

impl Client {
    pub(crate) fn connect<R: Net<Stream = TcpStream>>(
        rt: &R,
        alloc: Global,
        port: u16,
    ) -> io::Result<Client> {
        let stream = TcpStream::connect(rt, (Ipv4Addr::LOCALHOST, port))?;
        stream.set_nodelay(true)?;
        Ok(Client {
            stream,
            unread: Vec::new(alloc),
        })
    }

    pub(crate) fn send(&mut self, bytes: &[u8]) -> io::Result<()> {
        self.stream.write_all(bytes)
    }

    /// What comes up to these bytes, and with them; all that comes where the server ends before.
    pub(crate) fn receive_to(&mut self, alloc: Global, end: &[u8]) -> io::Result<Vec<u8>> {
        let mut buffer = [0u8; 1024];
        for _ in 0..1_000_000 {
            if let Some((front, rest)) = split_behind(self.unread.as_slice(), end) {
                let given = Vec::from_slice(alloc, front)?;
                self.unread = Vec::from_slice(alloc, rest)?;
                return Ok(given);
            }
            let count = self.stream.read(&mut buffer)?;
            if count == 0 {
                break;
            }
            self.unread.extend_from_slice(&buffer[..count])?;
        }
        Vec::from_slice(alloc, self.unread.as_slice()).map_err(io::Error::from)
    }
}

// What stands up to the first of these bytes and with them, and what stands behind.
fn split_behind<'a>(bytes: &'a [u8], wanted: &[u8]) -> Option<(&'a [u8], &'a [u8])> {
    for at in 0..bytes.len() {
        if bytes[at..].starts_with(wanted) {
            return bytes.split_at_checked(at.checked_add(wanted.len())?);
        }
    }
    None
}
