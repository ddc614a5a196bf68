//! The program between its arguments and its status: which script it runs, and what it prints. It is over any reader and writers.
ghost use Rattle.std.specs.Prelude.{◌≡◌};
ghost use Rattle.seize.specs.Alones.{IsSame};
ghost use Rattle.seize_script.specs.Ranges.{AreCallsFor, IsGroupFor, IsNew, IsWhole};
ghost use Rattle.seize_script.specs.Statuses.{IsStatus, status_of};

use crate::failure::Failure;
use crate::names::Names;
use crate::parser::parse;
use crate::row;
use crate::script::{Calls, Group, GroupEnd, Script};
use crate::value::{PutInside, Value};
use seize::{Alone, Call, Refusal, Reply};
use std::alloc::Global;
use std::collections::VecDeque;
use std::io;
use std::io::{ErrorKind, Read, Write};

/// How many bytes a script has at most.
pub const LONGEST_SCRIPT: usize = 1_048_576;

/// Does what the arguments say, and answers the status: 0, or that of a failure.
pub fn run_program<I: Read + Drop, O: Write + Drop, E: Write + Drop>(
    alloc: Global,
    args: &[&str],
    input: I,
    mut output: O,
    mut errors: E,
    reclaim: PutInside,
) -> u8
    ensures { IsStatus result }
{
    match run(alloc, args, input, &mut output, reclaim) {
        Ok(()) => 0,
        Err(failure) => report(&failure, &mut errors),
    }
}

/// Says why the program ends, and answers the status. A fault in saying so is passed over.
pub fn report<E: Write>(failure: &Failure<'_>, errors: &mut E) -> u8
    ensures { result ≡ status_of failure.now }
{
    let _ = writeln!(errors, "{failure}");
    failure.status()
}

fn run<'a, I: Read + Drop, O: Write>(
    alloc: Global,
    args: &[&'a str],
    input: I,
    output: &mut O,
    reclaim: PutInside,
) -> Result<(), Failure<'a>> {
    match args {
        ["row", name] => {
            let text = row::script_of(alloc, name)?.ok_or(Failure::NoRow(name))?;
            run_text(alloc, text.as_bytes(), output, reclaim)
        }
        ["script"] => {
            let text = read(alloc, input)?;
            run_text(alloc, text.as_slice(), output, reclaim)
        }
        _ => Err(Failure::Usage),
    }
}

/// The whole input, up to the first byte too many. Each fault of the reader is `CannotRead`, also its own want of memory; and so are
/// 2,097,152 reads that don't reach the end, of which more than a million were interrupted then.
fn read<'a, I: Read + Drop>(alloc: Global, input: I) -> Result<Vec<u8>, Failure<'a>> {
    let mut input = input.take(LONGEST_SCRIPT as u64 + 1);
    let mut text = Vec::new(alloc);
    let mut buffer = [0; 4096];
    for _ in 0..LONGEST_SCRIPT * 2 {
        match input.read(&mut buffer) {
            Ok(0) => return Ok(text),
            Ok(many) => text.extend_from_slice(&buffer[..many])?,
            Err(error) if error.kind() == ErrorKind::Interrupted => {}
            Err(_) => return Err(Failure::CannotRead),
        }
        if text.len() > LONGEST_SCRIPT {
            return Err(Failure::TooLong);
        }
    }
    Err(Failure::CannotRead)
}

fn run_text<'a, O: Write>(
    alloc: Global,
    text: &[u8],
    output: &mut O,
    reclaim: PutInside,
) -> Result<(), Failure<'a>> {
    let script = parse(alloc, text, reclaim)?;
    let ran = run_script(alloc, script, output);
    // what was printed before a failure stands
    output.flush().map_err(|_| Failure::CannotWrite)?;
    ran
}

fn run_script<'a, O: Write>(
    alloc: Global,
    script: Script,
    output: &mut O,
) -> Result<(), Failure<'a>>
    requires whole { IsWhole script }
    requires untouched { IsNew script.alone }
{
    let Script {
        mut alone,
        calls: Calls { groups, values },
    } = script;
    let mut names = Names::with_room(alloc, values)?;
    for group in groups {
        run_group(alloc, &mut alone, group, &mut names, output)?;
    }
    Ok(())
}

fn run_group<'a, O: Write>(
    alloc: Global,
    alone: &mut Alone<Value, PutInside>,
    group: Group,
    names: &mut Names,
    output: &mut O,
) -> Result<(), Failure<'a>>
    requires { IsGroupFor alone.old group }
    ensures { IsSame alone.old alone.new }
{
    let Group { calls, end } = group;
    run_calls(alloc, alone, calls, names, output)?;
    match end {
        GroupEnd::Tick => writeln!(output, "--").map_err(|_| Failure::CannotWrite),
        GroupEnd::All => reclaim_all(alone, names, output),
        GroupEnd::Script => Ok(()),
    }
}

/// Runs calls, and prints the names of the values gone and then the replies. Where a reply is that memory was refused, the program ends.
fn run_calls<'a, O: Write>(
    alloc: Global,
    alone: &mut Alone<Value, PutInside>,
    mut calls: VecDeque<Call<Value>>,
    names: &mut Names,
    output: &mut O,
) -> Result<(), Failure<'a>>
    requires { AreCallsFor alone.old calls.items }
    ensures { IsSame alone.old alone.new }
{
    let mut replies = Vec::new(alloc);
    alone.run(&mut calls, &mut replies, names)?;
    print_group(names, replies.as_slice(), output).map_err(|_| Failure::CannotWrite)?;
    if replies.iter().any(is_no_memory) {
        return Err(Failure::NoMemory);
    }
    names.clear();
    Ok(())
}

/// Reclaims all, and prints the names of the values gone.
fn reclaim_all<'a, O: Write>(
    alone: &mut Alone<Value, PutInside>,
    names: &mut Names,
    output: &mut O,
) -> Result<(), Failure<'a>>
    ensures { IsSame alone.old alone.new }
{
    alone.reclaim_all(names);
    print_group(names, &[], output).map_err(|_| Failure::CannotWrite)?;
    names.clear();
    Ok(())
}

fn is_no_memory(reply: &Reply<Value>) -> bool {
    matches!(reply, Reply::Refused(Refusal::NoMemory, _))
}

fn print_group<O: Write>(
    names: &Names,
    replies: &[Reply<Value>],
    output: &mut O,
) -> io::Result<()> {
    for name in names.as_slice() {
        writeln!(output, "gone {name}")?;
    }
    for reply in replies {
        print_reply(reply, output)?;
    }
    Ok(())
}

fn print_reply<O: Write>(reply: &Reply<Value>, output: &mut O) -> io::Result<()> {
    match reply {
        Reply::Done => Ok(()),
        Reply::Slot(n) => writeln!(output, "slot {n}"),
        Reply::Kept => writeln!(output, "kept"),
        Reply::Found(true) => writeln!(output, "found"),
        Reply::Found(false) => writeln!(output, "empty"),
        Reply::Refused(refusal, _) => {
            let number = refusal.number();
            writeln!(output, "refused {number} {refusal}")
        }
    }
}
