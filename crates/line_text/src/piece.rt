ghost use Rattle.std.specs.Prelude.{◌≡◌, ◌+◌, ◌≤◌, [], ◌++◌, length, OnOk, OnErr};
ghost use Rattle.codec_base.specs.Causes.{HasCause};
ghost use Rattle.stream_base.specs.Writing.{Writes};
ghost use Rattle.line_text.specs.Pending.{Puts};

use std::marker::Model;
use stream_base::{Sink, WriteFailed, write_all};

const ROOM: usize = 8192;

/// Bytes that wait to be written, so that they go out in large pieces. Contracts see them as their list. Where a call of `put` or of
/// a text fails, a front of the text has been written and what waits then is free: a text that failed isn't taken up again.
#[derive(Drop)]
pub struct Piece {
    bytes: [u8; 8192],
    used: usize,
}

impl Model for Piece {
    ghost use Rattle.std.specs.Prelude.{List, ℕ, ◌≤◌, take};

    ghost Value = { List ℕ };

    ghost view = { λ p. take p.used p.bytes };

    ghost invariant = { λ p. p.used ≤ 8192 };
}

impl Piece {
    /// Nothing waits.
    pub fn new() -> Self
        ensures { result ≡ [] }
    {
        Piece {
            bytes: [0; 8192],
            used: 0,
        }
    }

    /// Adds bytes for which there is room.
    fn push(&mut self, text: &[u8])
        requires { length self.old + length text.now ≤ 8192 }
        ensures { self.new ≡ self.old ++ text.now }
    {
        let end = self.used + text.len();
        self.bytes[self.used..end].copy_from_slice(text);
        self.used = end;
    }

    /// How many more bytes there is room for.
    fn room(&self) -> usize
        ensures { length self.now + result ≡ 8192 }
    {
        ROOM - self.used
    }

    /// Writes what waits. After a failure it waits still, though a front of it may have been written.
    pub fn send<O: Sink>(&mut self, out: &mut O) -> Result<(), WriteFailed>
        ensures sent { Writes (O.written out.old) (O.written out.new) result self.old }
        ensures ok { OnOk result (self.new ≡ []) }
        ensures err { OnErr result (self.new ≡ self.old) }
        ensures cause { HasCause (O.faults out.old) (O.faults out.new) result }
    {
        write_all(out, &self.bytes[..self.used])?;
        self.used = 0;
        Ok(())
    }

    /// Adds bytes. Where there is no room for them, what waits is written before.
    pub fn put<O: Sink>(&mut self, out: &mut O, text: &[u8]) -> Result<(), WriteFailed>
        ensures text { Puts (O.written out.old) self.old (O.written out.new) self.new result text.now }
        ensures cause { HasCause (O.faults out.old) (O.faults out.new) result }
    {
        if text.len() <= self.room() {
            self.push(text);
            return Ok(());
        }
        self.send(out)?;
        if text.len() <= ROOM {
            self.push(text);
            return Ok(());
        }
        write_all(out, text)
    }
}
