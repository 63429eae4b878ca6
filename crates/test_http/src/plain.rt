//! A stream of events read plainly, line by line, as the standard tells it
//! (<https://html.spec.whatwg.org/multipage/server-sent-events.html>), and nothing of what writes it.

use rx_heap::{Heap, Memory};

/// A message that is dispatched.
#[derive(Drop)]
pub(crate) struct Message {
    pub(crate) id: Vec<u8, Heap>,
    pub(crate) kind: Vec<u8, Heap>,
    pub(crate) text: Vec<u8, Heap>,
}

impl Message {
    /// Whether it says this: its id, its kind and its text.
    pub(crate) fn says(&self, id: &[u8], kind: &[u8], text: &[u8]) -> bool {
        self.id.as_slice() == id && self.kind.as_slice() == kind && self.text.as_slice() == text
    }
}

/// A reader of one stream.
#[derive(Drop)]
pub(crate) struct Reader {
    heap: Heap,
    // The next message so far: the id and the kind that were told, and each line of its text, with an LF.
    id: Vec<u8, Heap>,
    kind: Vec<u8, Heap>,
    lines: Vec<u8, Heap>,
    /// The id by which it comes again.
    pub(crate) last_id: Vec<u8, Heap>,
    /// What was dispatched.
    pub(crate) messages: Vec<Message, Heap>,
}

/// The reader of these bytes that came with this id.
pub(crate) fn read(heap: &Heap, last_id: &[u8], bytes: &[u8]) -> Result<Reader, Memory> {
    let mut reader = Reader::new(heap, last_id)?;
    let mut line = Vec::new(heap.clone()?);
    reader.take_all(&mut line, bytes)?;
    Ok(reader)
}

impl Reader {
    // A reader that nothing was told yet.
    fn new(heap: &Heap, last_id: &[u8]) -> Result<Reader, Memory> {
        Ok(Reader {
            heap: heap.clone()?,
            id: Vec::new(heap.clone()?),
            kind: Vec::new(heap.clone()?),
            lines: Vec::new(heap.clone()?),
            last_id: copy(heap, last_id)?,
            messages: Vec::new(heap.clone()?),
        })
    }

    // Takes each line of these bytes, of which the one that has not ended yet is gathered in `line`.
    fn take_all(&mut self, line: &mut Vec<u8, Heap>, bytes: &[u8]) -> Result<(), Memory> {
        let mut behind_cr = false;
        for byte in bytes {
            match *byte {
                b'\n' if behind_cr => {}
                b'\n' | b'\r' => {
                    self.take(line.as_slice())?;
                    line.clear();
                }
                other => line.push(other)?,
            }
            behind_cr = *byte == b'\r';
        }
        Ok(())
    }

    fn take(&mut self, line: &[u8]) -> Result<(), Memory> {
        if line.is_empty() {
            return self.dispatch();
        }
        let mut parts = line.splitn(2, |byte| *byte == b':');
        let name = parts.next().unwrap_or(b"".as_slice());
        let value = value_of(parts.next());
        self.tell(name, value)
    }

    fn tell(&mut self, name: &[u8], value: &[u8]) -> Result<(), Memory> {
        match name {
            b"data" => {
                self.lines.extend_from_slice(value)?;
                self.lines.push(b'\n')?;
            }
            b"event" => set(&mut self.kind, value)?,
            b"id" if !value.contains(&0) => set(&mut self.id, value)?,
            _ => {}
        }
        Ok(())
    }

    // The message that was told so far.
    fn message(&self) -> Result<Message, Memory> {
        let id = copy(&self.heap, self.id.as_slice())?;
        let kind = copy(&self.heap, kind_of(self.kind.as_slice()))?;
        let text = copy(&self.heap, self.lines.as_slice())?;
        Ok(Message { id, kind, text })
    }

    fn dispatch(&mut self) -> Result<(), Memory> {
        set(&mut self.last_id, self.id.as_slice())?;
        if self.lines.pop().is_some() {
            let message = self.message()?;
            self.messages.push(message)?;
        }
        self.kind.clear();
        self.lines.clear();
        Ok(())
    }
}

fn set(bytes: &mut Vec<u8, Heap>, value: &[u8]) -> Result<(), Memory> {
    bytes.clear();
    bytes.extend_from_slice(value)?;
    Ok(())
}

fn copy(heap: &Heap, bytes: &[u8]) -> Result<Vec<u8, Heap>, Memory> {
    Ok(Vec::from_slice(heap.clone()?, bytes)?)
}

// The value of a field: what stands behind the colon, without one space.
fn value_of(rest: Option<&[u8]>) -> &[u8] {
    match rest {
        Some([b' ', value @ ..]) => value,
        Some(value) => value,
        None => b"",
    }
}

// The kind of a message: where none was told, it is `message`.
fn kind_of(kind: &[u8]) -> &[u8] {
    match kind {
        [] => b"message",
        told => told,
    }
}
