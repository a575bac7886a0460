//! What a walk lends, as lines: `response INDEX`, `href=TEXT`, `status=CODE` where there is one, a line `CODE {NAMESPACE}NAME=TEXT` for
//! each property, and a line `element NAME=TEXT` for each element whose name is asked for.

use dav_script::RowFault;
use dav_walk::{Found, Handler, Next, Root};
use std::alloc::{AllocError, Global};

/// What a case asks for.
#[derive(Clone, Copy)]
pub struct Asked<'a> {
    /// Which document is expected.
    pub root: Root,
    /// Behind how many responses the handler stops.
    pub most: u64,
    /// The names of the elements that are shown, with a blank between two.
    pub shows: &'a str,
}

/// A handler that keeps what it is lent as lines.
#[derive(Drop)]
pub struct Teller<'a> {
    alloc: Global,
    asked: Asked<'a>,
    lines: Vec<u8>,
    lent: u64,
    /// Whether memory was wanting.
    failed: bool,
}

impl<'a> Teller<'a> {
    /// Before the first response.
    pub fn new(alloc: Global, asked: Asked<'a>) -> Teller<'a> {
        Teller {
            alloc,
            asked,
            lines: Vec::new(alloc),
            lent: 0,
            failed: false,
        }
    }

    /// Tells a line of a word, a name and its text.
    fn tell_line(&mut self, word: &str, name: &[u8], text: &[u8]) -> Result<(), AllocError> {
        self.lines.extend_from_slice(word.as_bytes())?;
        self.lines.extend_from_slice(name)?;
        self.lines.extend_from_slice(b"=")?;
        self.lines.extend_from_slice(text)?;
        self.lines.extend_from_slice(b"\n")
    }

    /// Tells what a response is.
    fn tell_response(&mut self, found: &Found<'_>) -> Result<(), AllocError> {
        let index = found.index;
        let line = format!(in self.alloc; "response {index}\n")?;
        self.lines.extend_from_slice(line.as_bytes())?;
        self.tell_line("href", b"", found.href())?;
        if let Some(status) = found.status() {
            let line = format!(in self.alloc; "status={status}\n")?;
            self.lines.extend_from_slice(line.as_bytes())?;
        }
        Ok(())
    }

    /// Tells the properties of a response.
    fn tell_props(&mut self, found: &Found<'_>) -> Result<(), AllocError> {
        for prop in found.props() {
            let status = prop.status;
            let front = format!(in self.alloc; "{status} {{")?;
            self.lines.extend_from_slice(front.as_bytes())?;
            self.lines.extend_from_slice(found.bytes(prop.node.ns))?;
            self.tell_line(
                "}",
                found.bytes(prop.node.name),
                found.bytes(prop.node.text),
            )?;
        }
        Ok(())
    }

    /// Tells the elements that are asked for.
    fn tell_elements(&mut self, found: &Found<'_>) -> Result<(), AllocError> {
        let shows = self.asked.shows;
        for node in found.nodes {
            let name = found.bytes(node.name);
            if shows.split(' ').any(|word| word.as_bytes() == name) {
                self.tell_line("element ", name, found.bytes(node.text))?;
            }
        }
        Ok(())
    }

    /// Tells a response.
    fn tell(&mut self, found: &Found<'_>) -> Result<(), AllocError> {
        self.tell_response(found)?;
        self.tell_props(found)?;
        self.tell_elements(found)
    }

    /// The lines.
    pub fn into_lines(self) -> Result<Vec<u8>, RowFault> {
        if self.failed {
            return Err(RowFault::Memory);
        }
        Ok(self.lines)
    }
}

impl Handler for Teller<'_> {
    ghost lends = { λ _ _ _ _. Unit {0} };

    fn response(&mut self, found: &Found<'_>) -> Next {
        if self.tell(found).is_err() {
            self.failed = true;
        }
        self.lent = self.lent.saturating_add(1);
        if self.lent >= self.asked.most {
            Next::Stop
        } else {
            Next::Go
        }
    }
}
