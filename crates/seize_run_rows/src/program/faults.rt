//! Readers and writers that fail.
use super::*;
use std::io;
use std::io::{ErrorKind, Read, Write};

/// Gives a script's beginning, and then fails in this way.
#[derive(Drop)]
struct FailingReader {
    left: &'static [u8],
    kind: ErrorKind,
}

impl Read for FailingReader {
    fn read(&mut self, buf: &mut [u8]) -> io::Result<usize> {
        if self.left.is_empty() {
            return Err(io::Error::from(self.kind));
        }
        self.left.read(buf)
    }
}

/// How a writer fails.
#[derive(Clone, Copy)]
enum Fault {
    /// It refuses a write.
    Refuses,
    /// It takes nothing of a write, and says so.
    TakesNone,
    /// It takes all writes, and refuses the flush.
    RefusesFlush,
}

/// Takes so many writes, of each so many bytes at most, and then fails.
#[derive(Drop)]
struct FailingWriter<'a> {
    left: usize,
    most: usize,
    fault: Fault,
    written: &'a mut Vec<u8>,
}

impl Write for FailingWriter<'_> {
    fn write(&mut self, buf: &[u8]) -> io::Result<usize> {
        if self.left == 0 {
            match self.fault {
                Fault::Refuses => return Err(io::Error::from(ErrorKind::Other)),
                Fault::TakesNone => return Ok(0),
                Fault::RefusesFlush => {}
            }
        } else {
            self.left -= 1;
        }
        let many = buf.len().min(self.most);
        self.written.extend_from_slice(&buf[..many])?;
        Ok(many)
    }

    fn flush(&mut self) -> io::Result<()> {
        if self.left == 0 {
            return Err(io::Error::from(ErrorKind::Other));
        }
        Ok(())
    }
}

/// Whatever its fault, also want of memory of its own.
#[test]
fn a_reader_that_fails(rt: HostRuntime) -> Result<(), Fail> {
    for kind in [ErrorKind::Other, ErrorKind::OutOfMemory] {
        for left in [b"".as_slice(), b"size 1 links 0\nregister\ntick\n", b"?\n"] {
            let mut output = Vec::new(rt.alloc());
            let mut errors = Vec::new(rt.alloc());
            let status = run_program(
                rt.alloc(),
                &["script"],
                FailingReader { left, kind },
                &mut output,
                &mut errors,
                PutInside,
            );
            assert_eq!(rt; status, 4);
            assert_eq!(rt; output.as_slice(), b"".as_slice());
            assert_eq!(rt; errors.as_slice(), b"cannot read\n".as_slice());
        }
    }
    Ok(())
}

/// Interrupts each read.
#[derive(Drop)]
struct NoReader {}

impl Read for NoReader {
    fn read(&mut self, _buf: &mut [u8]) -> io::Result<usize> {
        Err(io::Error::from(ErrorKind::Interrupted))
    }
}

/// One that is interrupted for ever can't be read.
#[test]
fn a_reader_that_is_interrupted_for_ever(rt: HostRuntime) -> Result<(), Fail> {
    let mut output = Vec::new(rt.alloc());
    let mut errors = Vec::new(rt.alloc());
    let status = run_program(
        rt.alloc(),
        &["script"],
        NoReader {},
        &mut output,
        &mut errors,
        PutInside,
    );
    assert_eq!(rt; status, 4);
    assert_eq!(rt; errors.as_slice(), b"cannot read\n".as_slice());
    Ok(())
}

/// Interrupts each second read.
#[derive(Drop)]
struct InterruptedReader {
    left: &'static [u8],
    interrupts: bool,
}

impl Read for InterruptedReader {
    fn read(&mut self, buf: &mut [u8]) -> io::Result<usize> {
        self.interrupts = !self.interrupts;
        if self.interrupts {
            return Err(io::Error::from(ErrorKind::Interrupted));
        }
        let most = buf.len().min(1);
        self.left.read(&mut buf[..most])
    }
}

#[test]
fn a_reader_that_is_interrupted(rt: HostRuntime) -> Result<(), Fail> {
    let mut output = Vec::new(rt.alloc());
    let mut errors = Vec::new(rt.alloc());
    let input = InterruptedReader {
        left: b"size 1 links 0\nregister\n",
        interrupts: false,
    };
    let status = run_program(
        rt.alloc(),
        &["script"],
        input,
        &mut output,
        &mut errors,
        PutInside,
    );
    assert_eq!(rt; status, 0);
    assert_eq!(rt; output.as_slice(), b"slot 0\n".as_slice());
    assert_eq!(rt; errors.as_slice(), b"".as_slice());
    Ok(())
}

/// Gives so many line ends, and then fails.
#[derive(Drop)]
struct LongReader {
    left: usize,
}

impl Read for LongReader {
    fn read(&mut self, buf: &mut [u8]) -> io::Result<usize> {
        if self.left == 0 {
            return Err(io::Error::from(ErrorKind::Other));
        }
        let many = buf.len().min(self.left);
        self.left -= many;
        buf[..many].fill(b'\n');
        Ok(many)
    }
}

/// A reader that fails behind the last byte that a script may have fails. Behind one byte more it isn't asked any more.
#[test]
fn a_reader_that_fails_behind_the_longest_script(rt: HostRuntime) -> Result<(), Fail> {
    for (left, wanted, said) in [
        (LONGEST_SCRIPT, 4, "cannot read"),
        (LONGEST_SCRIPT + 1, 2, "script too long"),
    ] {
        let mut output = Vec::new(rt.alloc());
        let mut errors = Vec::new(rt.alloc());
        let status = run_program(
            rt.alloc(),
            &["script"],
            LongReader { left },
            &mut output,
            &mut errors,
            PutInside,
        );
        assert_eq!(rt; status, wanted);
        assert_eq!(rt; output.as_slice(), b"".as_slice());
        assert_eq!(rt; errors.as_slice(), lines(rt.alloc(), said)?.as_slice());
    }
    Ok(())
}

/// Writes the row's output so, with each number of writes from none on, until that is enough. What was written is a beginning of the whole.
fn fail_each_write(
    rt: &(impl AllocGlobal + Abort),
    name: &str,
    most: usize,
    fault: Fault,
) -> Result<(), Fail> {
    let whole = given(rt.alloc(), &["row", name], b"").output;
    for left in 0..2_000usize {
        let mut written = Vec::new(rt.alloc());
        let writer = FailingWriter {
            left,
            most,
            fault,
            written: &mut written,
        };
        let status = with_writer(rt, name, writer)?;
        assert!(rt; whole.starts_with(written.as_slice()));
        if status == 0 {
            assert_eq!(rt; written.len(), whole.len());
            return Ok(());
        }
        assert_eq!(rt; status, 5);
        if let Fault::RefusesFlush = fault {
            assert_eq!(rt; written.len(), whole.len());
        }
    }
    assert!(rt; false);
    Ok(())
}

fn with_writer(
    rt: &(impl AllocGlobal + Abort),
    name: &str,
    writer: FailingWriter<'_>,
) -> Result<u8, Fail> {
    let mut errors = Vec::new(rt.alloc());
    let status = run_program(
        rt.alloc(),
        &["row", name],
        b"".as_slice(),
        writer,
        &mut errors,
        PutInside,
    );
    let said = if status == 0 { "" } else { "cannot write" };
    let said = lines(rt.alloc(), said)?;
    assert_eq!(rt; errors.as_slice(), said.as_slice());
    Ok(status)
}

/// Each row, with whole writes, of which one is refused.
#[test]
fn each_write_that_fails(rt: HostRuntime) -> Result<(), Fail> {
    for (name, _) in rows::ROWS {
        fail_each_write(&rt, name, usize::MAX, Fault::Refuses)?;
    }
    for name in ["flushes", "fives"] {
        fail_each_write(&rt, name, usize::MAX, Fault::Refuses)?;
    }
    Ok(())
}

/// A writer that takes three bytes of each write, and then refuses one, or takes nothing, or refuses the flush alone.
#[test]
fn each_write_that_takes_a_part(rt: HostRuntime) -> Result<(), Fail> {
    for fault in [Fault::Refuses, Fault::TakesNone, Fault::RefusesFlush] {
        for (name, _) in rows::ROWS {
            fail_each_write(&rt, name, 3, fault)?;
        }
    }
    Ok(())
}

/// A fault in saying why is passed over.
#[test]
fn errors_that_fail(rt: HostRuntime) -> Result<(), Fail> {
    let mut output = Vec::new(rt.alloc());
    let mut written = Vec::new(rt.alloc());
    let errors = FailingWriter {
        left: 0,
        most: usize::MAX,
        fault: Fault::Refuses,
        written: &mut written,
    };
    let status = run_program(
        rt.alloc(),
        &["row", "nothing"],
        b"".as_slice(),
        &mut output,
        errors,
        PutInside,
    );
    assert_eq!(rt; status, 2);
    Ok(())
}
