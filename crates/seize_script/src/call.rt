//! The grammar of one line: a call, and the values in it, whose blocks are made as they are read.
ghost use Rattle.std.specs.Prelude.{All, ◌≡◌, ◌≤◌, ◌<◌, length, IfOk};
ghost use Rattle.seize.specs.Blocks.{Belongs};
ghost use Rattle.seize_script.specs.Ranges.{IsCallFor};
ghost use Rattle.seize_script.specs.Values.{owners_of};

use crate::line::{Line, LineError};
use crate::name::Name;
use crate::value::{PutInside, Value};
use seize::{Alone, Call, Owned};
use std::alloc::Global;

/// How deep values may stand in one another's brackets; one without brackets is 1 deep.
const DEEPEST: usize = 64;

/// Reads the calls of a script.
#[derive(Drop)]
pub struct CallReader {
    alloc: Global,
    // has the blocks of the calls that are read
    alone: Alone<Value, PutInside>,
    // how many values it has read
    values: usize,
}

impl CallReader {
    /// Reads calls on this collector.
    pub fn new(alloc: Global, alone: Alone<Value, PutInside>) -> CallReader
        ensures { result.alone ≡ alone }
    {
        CallReader {
            alloc,
            alone,
            values: 0,
        }
    }

    /// The collector, and how many values were read.
    pub fn finish(self) -> (Alone<Value, PutInside>, usize)
        ensures { result ≡ (self.alone, self.values) }
    {
        (self.alone, self.values)
    }

    /// A call that begins with this word, with the blocks that it brings. Nothing else is done on the collector.
    pub fn call(&mut self, word: &[u8], line: &mut Line<'_>) -> Result<Call<Value>, LineError>
        ensures call { IfOk result (IsCallFor self.old.alone) }
        ensures same { self.new.alone ≡ self.old.alone }
    {
        match word {
            b"register" => Ok(Call::Register),
            b"owned" => Ok(Call::EnterOwned),
            b"enter" => Ok(Call::Enter(line.number()?)),
            b"leave" => Ok(Call::Leave(line.number()?)),
            b"end" => Ok(Call::End(line.number()?)),
            b"refresh" => Ok(Call::Refresh(line.number()?)),
            b"flush" => Ok(Call::Flush(line.number()?)),
            b"retire" => self.retire(line),
            b"protect" => Ok(Call::Protect(line.number()?, self.link(line)?)),
            b"swap" => self.swap(line),
            _ => Err(LineError::Bad),
        }
    }

    fn retire(&mut self, line: &mut Line<'_>) -> Result<Call<Value>, LineError>
        ensures call { IfOk result (IsCallFor self.old.alone) }
        ensures same { self.new.alone ≡ self.old.alone }
    {
        let slot = line.number()?;
        line.expect(b" ")?;
        let block = self.block(line, DEEPEST)?;
        Ok(Call::Retire(slot, block, 0))
    }

    fn swap(&mut self, line: &mut Line<'_>) -> Result<Call<Value>, LineError>
        ensures call { IfOk result (IsCallFor self.old.alone) }
        ensures same { self.new.alone ≡ self.old.alone }
    {
        let slot = line.number()?;
        let link = self.link(line)?;
        line.expect(b" ")?;
        let new = if line.take(b"-") {
            None
        } else {
            Some(self.block(line, DEEPEST)?)
        };
        Ok(Call::Swap(slot, link, new, 0))
    }

    fn link(&self, line: &mut Line<'_>) -> Result<usize, LineError>
        ensures { IfOk result (λ link. link < self.now.alone.links) }
    {
        let link = line.number()?;
        if link < self.alone.links() {
            Ok(link)
        } else {
            Err(LineError::Bad)
        }
    }

    /// A value in a block, at most this deep.
    fn block(&mut self, line: &mut Line<'_>, deepest: usize) -> Result<Owned<Value>, LineError>
        ensures own { IfOk result (Belongs owners_of self.old.alone.book.store) }
        ensures same { self.new.alone ≡ self.old.alone }
        ensures shorter { length line.new ≤ length line.old }
    {
        let Some(deeper) = deepest.checked_sub(1) else {
            return Err(LineError::Bad);
        };
        let name = line.name()?;
        self.values = self.values.saturating_add(1);
        let mut inside = Vec::new(self.alloc);
        if line.take(b"(") {
            inside.push(self.block(line, deeper)?)?;
            while line.take(b",") {
                inside.push(self.block(line, deeper)?)?;
            }
            line.expect(b")")?;
        }
        self.nest(name, inside)
    }

    /// A block with the value of this name that has these blocks of the collector in its brackets.
    fn nest(&mut self, name: Name, inside: Vec<Owned<Value>>) -> Result<Owned<Value>, LineError>
        requires { All (Belongs owners_of self.old.alone.book.store) inside.items }
        ensures own { IfOk result (Belongs owners_of self.old.alone.book.store) }
        ensures same { self.new.alone ≡ self.old.alone }
    {
        match self.alone.owned(Value { name, inside }) {
            Ok(block) => Ok(block),
            Err(_) => Err(LineError::NoMemory),
        }
    }
}
