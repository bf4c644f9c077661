ghost use Rattle.std.specs.Prelude.{◌≡◌, ◌≤◌, codes, if◌then◌else◌, length, None, IfOk};
ghost use Rattle.std.specs.Str.{bytes_eq};

use crate::{Failed, Files, Sink};
use std::fs::File;
use std::io::{ErrorKind, Read, Write};
use std::{io, rt};

/// Real files. They tell nothing of what they hold, and each failure raises their count; a missing
/// file is one. A read that a signal interrupts is tried again, and counts as none. A file is opened once and read on
/// from there, so what can be read in its order alone, as a pipe, is read too, and what another program puts in its
/// place meanwhile is not mixed in. The name `-` is the standard input, of which each opening has what is left; a file
/// of that name is `./-`.
#[derive(Drop)]
pub struct OsFiles<R: rt::Files> {
    runtime: R,
    opened: Option<R::File>,
    faults: u64,
}

impl<R: rt::Files> OsFiles<R> {
    /// The files that the runtime gives access to. None is open.
    pub fn make(runtime: R) -> OsFiles<R>
        ensures { ⟦<OsFiles<R> as Files>⟧.faults result ≡ 0 }
    {
        OsFiles {
            runtime,
            opened: None,
            faults: 0,
        }
    }
}

// Reads on, once more where a signal interrupts that.
fn read_again<T: Read>(file: &mut T, into: &mut [u8]) -> io::Result<usize>
    ensures { IfOk result (λ count. count ≤ length into.new) }
{
    for _ in 0..u64::MAX {
        match file.read(into) {
            Err(error) if error.kind() == ErrorKind::Interrupted => {}
            read => return read,
        }
    }
    Err(io::Error::from(ErrorKind::Interrupted))
}

// The path of a name: that of the standard input for a dash alone.
fn path_of(name: &str) -> &str
    ensures { result.now ≡ (if bytes_eq name.now (codes "-") then codes "/dev/stdin" else name.now) }
{
    if name == "-" { "/dev/stdin" } else { name }
}

// Reads on in the file, where one is open.
fn read_real<T: Read>(opened: &mut Option<T>, into: &mut [u8]) -> io::Result<usize>
    ensures { IfOk result (λ count. count ≤ length into.new) }
{
    match opened {
        Some(file) => read_again(file, into),
        None => Err(io::Error::from(ErrorKind::NotFound)),
    }
}

impl<R: rt::Files> Files for OsFiles<R> {
    ghost held = { λ s name. None };

    ghost ahead = { λ s. None };

    ghost faults = { λ s. s.faults };

    fn open(&mut self, name: &str) -> Result<(), Failed> {
        match File::open(&self.runtime, path_of(name)) {
            Ok(file) => {
                self.opened = Some(file);
                Ok(())
            }
            Err(_) => {
                self.faults = self.faults.saturating_add(1);
                Err(Failed)
            }
        }
    }

    fn read(&mut self, into: &mut [u8]) -> Result<usize, Failed> {
        match read_real(&mut self.opened, into) {
            Ok(count) => Ok(count),
            Err(_) => {
                self.faults = self.faults.saturating_add(1);
                Err(Failed)
            }
        }
    }
}

// Writes some of the bytes, once more where a signal interrupts that.
fn write_again<W: Write>(out: &mut W, bytes: &[u8]) -> io::Result<usize>
    ensures { IfOk result (λ count. count ≤ length bytes.now) }
{
    for _ in 0..u64::MAX {
        match out.write(bytes) {
            Err(error) if error.kind() == ErrorKind::Interrupted => {}
            written => return written,
        }
    }
    Err(io::Error::from(ErrorKind::Interrupted))
}

/// A real writer, such as the standard output. It tells nothing of what was written, and each
/// failure raises its count; that none of a nonempty piece is taken is one. A write that a signal interrupts is tried
/// again, and counts as none.
#[derive(Drop)]
pub struct OutSink<W: Write> {
    out: W,
    faults: u64,
}

impl<W: Write> OutSink<W> {
    /// A sink over the writer.
    pub fn make(out: W) -> OutSink<W>
        ensures { ⟦<OutSink<W> as Sink>⟧.faults result ≡ 0 }
    {
        OutSink { out, faults: 0 }
    }
}

impl<W: Write> Sink for OutSink<W> {
    ghost written = { λ s. None };

    ghost faults = { λ s. s.faults };

    fn write(&mut self, bytes: &[u8]) -> Result<usize, Failed> {
        if bytes.is_empty() {
            return Ok(0);
        }
        match write_again(&mut self.out, bytes) {
            Ok(count) if count > 0 => Ok(count),
            _ => {
                self.faults = self.faults.saturating_add(1);
                Err(Failed)
            }
        }
    }
}
