//! The grammar of scripts: their lines and groups. A script is read and checked whole before anything of it runs.
ghost use Rattle.std.specs.Prelude.{◌≡◌, IfOk, OnOk};
ghost use Rattle.seize_script.specs.Ranges.{IsNew, IsReady, IsWhole};

use crate::call::CallReader;
use crate::failure::Failure;
use crate::line::{Line, LineError};
use crate::script::{Calls, Group, GroupEnd, Script};
use crate::value::{PutInside, Value};
use seize::{Alone, Call, IdSource};
use std::alloc::{AllocError, Global};
use std::collections::VecDeque;
use std::mem;

/// How many links a script may ask for.
const MOST_LINKS: usize = 1024;

/// Reads a script. Its collector has no event yet.
///
/// # Errors
///
/// `BadLine` with the first line that breaks the grammar, `NoMemory` where the allocator refuses.
pub fn parse<'a>(alloc: Global, text: &[u8], reclaim: PutInside) -> Result<Script, Failure<'a>>
    ensures whole { IfOk result IsWhole }
    ensures untouched { IfOk result (λ script. IsNew script.alone) }
{
    let Header { size, links, line } = first_line(text)?;
    let alone = Alone::with_reclaimer(alloc, &mut IdSource::new(), 1, links, reclaim)?;
    later_lines(alloc, text, line, alone.batch_size(size))
}

/// What a script's first line asks for.
struct Header {
    size: usize,
    links: usize,
    /// The line's number, from 1 on.
    line: usize,
}

/// Reads the first line that isn't empty.
fn first_line<'a>(text: &[u8]) -> Result<Header, Failure<'a>> {
    let mut line = 0usize;
    for bytes in text.split(is_line_feed) {
        line = line.saturating_add(1);
        if !bytes.is_empty() {
            return read_header(bytes, line).map_err(|error| error.at(line));
        }
    }
    Err(Failure::BadLine(1))
}

/// Reads the lines behind the first so many, which call this collector.
fn later_lines<'a>(
    alloc: Global,
    text: &[u8],
    first: usize,
    alone: Alone<Value, PutInside>,
) -> Result<Script, Failure<'a>>
    ensures whole { IfOk result IsWhole }
    ensures same { IfOk result (λ script. script.alone ≡ alone) }
{
    let mut parser = Parser::new(alloc, alone);
    let mut number = first;
    for bytes in text.split(is_line_feed).skip(first) {
        number = number.saturating_add(1);
        if !bytes.is_empty() {
            if let Err(error) = parser.line(bytes) {
                return Err(error.at(number));
            }
        }
    }
    parser.end_group(GroupEnd::Script)?;
    let Parser { reader, groups, .. } = parser;
    let (alone, values) = reader.finish();
    Ok(Script {
        alone,
        calls: Calls { groups, values },
    })
}

fn is_line_feed(byte: &u8) -> bool {
    *byte == b'\n'
}

/// Reads the line of this number as the first.
fn read_header(bytes: &[u8], number: usize) -> Result<Header, LineError> {
    let mut line = Line::new(bytes);
    line.expect(b"size")?;
    let size = line.number()?;
    line.expect(b" links")?;
    let links = line.number()?;
    line.end()?;
    if links > MOST_LINKS {
        return Err(LineError::Bad);
    }
    Ok(Header {
        size,
        links,
        line: number,
    })
}

/// Reads the lines behind the first, one after another.
#[derive(Drop)]
struct Parser {
    reader: CallReader,
    // the groups that are ended
    groups: Vec<Group>,
    // the calls of the group that is not
    calls: VecDeque<Call<Value>>,
}

impl Parser {
    fn new(alloc: Global, alone: Alone<Value, PutInside>) -> Parser
        ensures ready { IsReady result }
        ensures same { result.reader.alone ≡ alone }
    {
        Parser {
            reader: CallReader::new(alloc, alone),
            groups: Vec::new(alloc),
            calls: VecDeque::new(alloc),
        }
    }

    /// Reads a line that isn't empty.
    fn line(&mut self, bytes: &[u8]) -> Result<(), LineError>
        requires { IsReady self.old }
        ensures ready { OnOk result (IsReady self.new) }
        ensures same { self.new.reader.alone ≡ self.old.reader.alone }
    {
        let mut line = Line::new(bytes);
        let word = line.word();
        if let Some(end) = GroupEnd::named(word) {
            line.end()?;
            self.end_group(end)?;
            return Ok(());
        }
        let call = self.reader.call(word, &mut line)?;
        line.end()?;
        self.calls.push_back(call)?;
        Ok(())
    }

    fn end_group(&mut self, end: GroupEnd) -> Result<(), AllocError>
        requires { IsReady self.old }
        ensures ready { OnOk result (IsReady self.new) }
        ensures same { self.new.reader.alone ≡ self.old.reader.alone }
    {
        let alloc = *self.calls.allocator();
        let calls = mem::replace(&mut self.calls, VecDeque::new(alloc));
        self.groups.push(Group { calls, end })?;
        Ok(())
    }
}
