use crate::{ReaderSource, TcpWire, WriterSink};
use dav_edge::{Failed, Sink, Source, Wire, send_whole};
use std::io;
use std::io::{ErrorKind, Read, Write};
use std::net::{Ipv4Addr, SocketAddr, TcpListener};
use std::test::Fail;
use std::time::Duration;

/// A reader or a writer whose first calls are interrupted. Some go on, and then all fail.
#[derive(Drop)]
struct Unsteady<T> {
    inner: T,
    interrupted: u32,
    going: u32,
}

impl<T> Unsteady<T> {
    fn begin(&mut self) -> io::Result<()> {
        if self.interrupted > 0 {
            self.interrupted -= 1;
            return Err(io::Error::from(ErrorKind::Interrupted));
        }
        if self.going == 0 {
            return Err(io::Error::from(ErrorKind::BrokenPipe));
        }
        self.going -= 1;
        Ok(())
    }
}

impl<R: Read> Read for Unsteady<R> {
    fn read(&mut self, buf: &mut [u8]) -> io::Result<usize> {
        self.begin()?;
        self.inner.read(buf)
    }
}

impl<W: Write> Write for Unsteady<W> {
    fn write(&mut self, buf: &[u8]) -> io::Result<usize> {
        self.begin()?;
        self.inner.write(buf)
    }

    fn flush(&mut self) -> io::Result<()> {
        self.inner.flush()
    }
}

#[test]
fn a_reader_gives_its_bytes_and_its_end(rt: HostRuntime) {
    let mut source = ReaderSource::new(Unsteady {
        inner: b"hello".as_slice(),
        interrupted: 3,
        going: 3,
    });
    let mut buf = [0u8; 4];
    assert!(rt; source.take(&mut buf) == Ok(4));
    assert!(rt; buf.as_slice() == b"hell".as_slice());
    assert!(rt; source.take(&mut buf) == Ok(1));
    assert_eq!(rt; buf[0], b'o');
    assert!(rt; source.take(&mut buf) == Ok(0));
    assert!(rt; source.take(&mut buf) == Err(Failed));
}

#[test]
fn a_writer_takes_the_bytes(rt: HostRuntime) {
    let mut taken = Vec::new(rt.alloc());
    let mut sink = WriterSink::new(Unsteady {
        inner: &mut taken,
        interrupted: 2,
        going: 2,
    });
    assert!(rt; sink.put(b"hello") == Ok(5));
    assert!(rt; sink.put(b"!") == Ok(1));
    assert!(rt; sink.put(b"more") == Err(Failed));
    assert!(rt; taken.as_slice() == b"hello!".as_slice());
    let mut none = [0u8; 0];
    let mut full = WriterSink::new(none.as_mut_slice());
    assert!(rt; full.put(b"") == Ok(0));
    assert!(rt; full.put(b"x") == Err(Failed));
}

#[test]
fn a_wire_connects_sends_receives_and_shuts(rt: HostRuntime) -> Result<(), Fail> {
    let listener = TcpListener::bind(&rt, SocketAddr::from((Ipv4Addr::LOCALHOST, 0)))?;
    listener.set_nonblocking(true)?;
    let port = listener.local_addr()?.port();
    let mut wire = TcpWire::new(&rt);
    let mut buf = [0u8; 16];
    assert!(rt; wire.send(b"early") == Err(Failed));
    assert!(rt; wire.receive(&mut buf) == Err(Failed));

    assert!(rt; wire.connect("127.0.0.1", port) == Ok(()));
    let (mut peer, _) = listener.accept()?;
    peer.set_read_timeout(Some(Duration::from_secs(5)))?;
    assert!(rt; send_whole(&mut wire, b"ping") == Ok(()));
    let mut got = [0u8; 4];
    peer.read_exact(&mut got)?;
    assert!(rt; got.as_slice() == b"ping".as_slice());
    peer.write_all(b"pong!")?;
    drop(peer);
    let mut replied = Vec::new(rt.alloc());
    for _ in 0..6 {
        let Ok(count) = wire.receive(&mut buf) else {
            break;
        };
        replied.extend_from_slice(&buf[..count])?;
    }
    assert!(rt; replied.as_slice() == b"pong!".as_slice());
    assert!(rt; wire.receive(&mut buf) == Ok(0));

    assert!(rt; wire.connect("127.0.0.1", port) == Ok(()));
    let (mut next, _) = listener.accept()?;
    next.set_read_timeout(Some(Duration::from_secs(5)))?;
    wire.shut();
    assert_eq!(rt; next.read(&mut got)?, 0);
    assert!(rt; wire.send(b"late") == Err(Failed));

    drop(listener);
    assert!(rt; wire.connect("127.0.0.1", port) == Err(Failed));
    assert!(rt; wire.receive(&mut buf) == Err(Failed));
    Ok(())
}
