ghost use Rattle.std.specs.Prelude.{◌≡◌};

use dav_edge::{Failed, Sink, Source, Wire};

/// A device, and how many calls it was asked.
#[derive(Drop)]
pub struct Counted<T> {
    /// The device.
    pub inner: T,
    /// The number of calls.
    pub calls: u64,
}

impl<T> Counted<T> {
    /// A device that was asked nothing yet.
    pub fn new(inner: T) -> Counted<T> {
        Counted { inner, calls: 0 }
    }

    fn count(&mut self)
        ensures { self.new.inner ≡ self.old.inner }
    {
        self.calls = self.calls.saturating_add(1);
    }
}

impl<S: Source> Source for Counted<S> {
    ghost log = { λ c. S.log c.inner };

    ghost rest = { λ c. S.rest c.inner };

    fn take(&mut self, buf: &mut [u8]) -> Result<usize, Failed> {
        self.count();
        self.inner.take(buf)
    }
}

impl<K: Sink> Sink for Counted<K> {
    ghost log = { λ c. K.log c.inner };

    fn put(&mut self, bytes: &[u8]) -> Result<usize, Failed> {
        self.count();
        self.inner.put(bytes)
    }
}

impl<W: Wire> Wire for Counted<W> {
    ghost log = { λ c. W.log c.inner };

    ghost rest = { λ c. W.rest c.inner };

    fn connect(&mut self, host: &str, port: u16) -> Result<(), Failed> {
        self.count();
        self.inner.connect(host, port)
    }

    fn send(&mut self, bytes: &[u8]) -> Result<usize, Failed> {
        self.count();
        self.inner.send(bytes)
    }

    fn receive(&mut self, buf: &mut [u8]) -> Result<usize, Failed> {
        self.count();
        self.inner.receive(buf)
    }

    fn shut(&mut self) {
        self.count();
        self.inner.shut()
    }
}
