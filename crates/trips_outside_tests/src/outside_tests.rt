//! Files and sinks in memory and real, read and written in pieces.

use std::alloc::{AllocError, Global};
use std::io::Write;
use std::os::fd::AsRawFd;
use std::test::Fail;
use std::{fs, io};
use trips_outside::{
    Failed, Files, HonestFiles, HonestSink, LoadFault, MemFiles, MemSink, OsFiles, OutSink, Sink,
    WriteFault, load, write_all,
};

fn one_file(alloc: Global, bytes: &[u8]) -> Result<Vec<(String, Vec<u8>)>, AllocError> {
    let mut files = Vec::new(alloc);
    files.push((
        String::from_str(alloc, "a")?,
        Vec::from_slice(alloc, bytes)?,
    ))?;
    Ok(files)
}

// `abcde` is loaded in pieces: a name, a limit, the call that fails (0 for none; the first one opens the file), and
// the answer.
#[test]
fn loads_in_pieces(rt: HostRuntime) -> Result<(), Fail> {
    let alloc = rt.alloc();
    let rows: [(&str, u64, u64, Option<LoadFault>); 7] = [
        ("a", 5, 0, None),
        ("a", 5, 6, None),
        ("a", 4, 0, Some(LoadFault::TooLarge)),
        ("a", 5, 5, Some(LoadFault::Fault)),
        ("a", 5, 2, Some(LoadFault::Fault)),
        ("a", 5, 1, Some(LoadFault::Fault)),
        ("b", 5, 0, Some(LoadFault::Fault)),
    ];
    for (name, limit, fails, want) in rows {
        let mut failing = Vec::new(alloc);
        failing.push(fails)?;
        let mut files = MemFiles::make(one_file(alloc, b"abcde")?, 2, failing);
        let fault = match load(alloc, &mut files, name, limit) {
            Ok(all) => {
                assert_eq!(rt;
                    all.as_slice(),
                    b"abcde".as_slice(),
                    "{name} {limit} {fails}"
                );
                None
            }
            Err(fault) => Some(fault),
        };
        assert_eq!(rt; fault, want, "{name} {limit} {fails}");
    }
    Ok(())
}

#[test]
fn writes_in_pieces_up_to_the_room(rt: HostRuntime) -> Result<(), Fail> {
    let alloc = rt.alloc();
    let mut sink = MemSink::make(alloc, 2, 5, Vec::new(alloc))?;
    assert_eq!(rt; write_all(&mut sink, b"abcd"), Ok(()));
    assert_eq!(rt; write_all(&mut sink, b"ef"), Err(WriteFault::Fault));
    assert_eq!(rt; sink.written(), b"abcde".as_slice());
    Ok(())
}

#[test]
fn honest_ones_never_fail(rt: HostRuntime) -> Result<(), Fail> {
    let alloc = rt.alloc();
    let mut files = HonestFiles::make(one_file(alloc, b"abc")?);
    assert_eq!(rt;
        load(alloc, &mut files, "a", 3)?.as_slice(),
        b"abc".as_slice()
    );
    assert_eq!(rt; load(alloc, &mut files, "b", 3)?.as_slice(), b"".as_slice());
    let mut sink = HonestSink::make(alloc, 2)?;
    assert_eq!(rt; write_all(&mut sink, b"abcd"), Ok(()));
    assert_eq!(rt; sink.written(), b"ab".as_slice());
    Ok(())
}

// An opening begins at the start, also of the file that is open, and one that fails leaves open what was. Where
// none is open a read fails.
#[test]
fn one_file_is_open(rt: HostRuntime) -> Result<(), Fail> {
    let alloc = rt.alloc();
    let mut files = MemFiles::make(one_file(alloc, b"abc")?, 2, Vec::new(alloc));
    let mut bytes = [0u8; 9];
    assert_eq!(rt; files.read(&mut bytes), Err(Failed));
    assert_eq!(rt; files.open("a"), Ok(()));
    assert_eq!(rt; files.read(&mut bytes), Ok(2));
    assert_eq!(rt; files.open("b"), Err(Failed));
    assert_eq!(rt; files.read(&mut bytes), Ok(1));
    assert_eq!(rt; bytes[0], b'c');
    assert_eq!(rt; files.read(&mut bytes), Ok(0));
    assert_eq!(rt; files.open("a"), Ok(()));
    assert_eq!(rt; files.read(&mut bytes), Ok(2));
    assert_eq!(rt; bytes[0], b'a');
    Ok(())
}

// So many bytes, which differ from those a piece of `load` further on.
fn counted_bytes(alloc: Global, count: u32) -> Result<Vec<u8>, AllocError> {
    let mut bytes = Vec::new(alloc);
    for i in 0..count {
        bytes.push((i % 251) as u8)?;
    }
    Ok(bytes)
}

// A file longer than one piece of `load` is read whole, and a missing file and a folder are faults.
#[test]
fn reads_real_files(rt: HostRuntime) -> Result<(), Fail> {
    let alloc = rt.alloc();
    let bytes = counted_bytes(alloc, 20_000)?;
    fs::write(&rt, "real", &bytes)?;
    let mut files = OsFiles::make(rt.clone()?);
    let mut byte = [0u8; 1];
    assert_eq!(rt; files.read(&mut byte), Err(Failed));
    let all = load(alloc, &mut files, "real", 20_000)?;
    assert_eq!(rt; all.as_slice(), bytes.as_slice());
    assert_eq!(rt; files.read(&mut byte), Ok(0));
    assert_eq!(rt; files.open("none"), Err(Failed));
    assert_eq!(rt; load(alloc, &mut files, "none", 9).is_err(), true);
    assert_eq!(rt; load(alloc, &mut files, ".", 9).is_err(), true);
    assert_eq!(rt; load(alloc, &mut files, "real", 19_999).is_err(), true);
    Ok(())
}

// What another file takes the place of is read to its end.
#[test]
fn a_file_saved_anew_is_no_mixture(rt: HostRuntime) -> Result<(), Fail> {
    let alloc = rt.alloc();
    fs::write(&rt, "saved", b"first")?;
    fs::write(&rt, "later", b"other")?;
    let mut files = OsFiles::make(rt.clone()?);
    let mut bytes = [0u8; 2];
    assert_eq!(rt; files.open("saved"), Ok(()));
    assert_eq!(rt; files.read(&mut bytes), Ok(2));
    fs::rename(&rt, "later", "saved")?;
    assert_eq!(rt; files.read(&mut bytes), Ok(2));
    assert_eq!(rt; bytes.as_slice(), b"rs".as_slice());
    assert_eq!(rt;
        load(alloc, &mut files, "saved", 5)?.as_slice(),
        b"other".as_slice()
    );
    Ok(())
}

// What can only be read in its order, once: the reading end of a pipe, by its name.
#[test]
fn reads_a_pipe(rt: HostRuntime) -> Result<(), Fail> {
    let alloc = rt.alloc();
    let bytes = counted_bytes(alloc, 20_000)?;
    let (reader, mut writer) = io::pipe(&rt)?;
    writer.write_all(&bytes)?;
    drop(writer);
    let name = format!(in alloc; "/dev/fd/{}", reader.as_raw_fd())?;
    let mut files = OsFiles::make(rt.clone()?);
    let all = load(alloc, &mut files, &name, 20_000)?;
    assert_eq!(rt; all.as_slice(), bytes.as_slice());
    Ok(())
}

#[test]
fn writes_to_standard_output(rt: HostRuntime) -> Result<(), Fail> {
    let mut sink = OutSink::make(io::writer(&rt));
    assert_eq!(rt; sink.write(b""), Ok(0));
    assert_eq!(rt; write_all(&mut sink, b"abc"), Ok(()));
    Ok(())
}

// A writer that takes a byte a call, and of which a signal interrupts every other call.
#[derive(Drop)]
struct Interrupted {
    written: Vec<u8>,
    is_next: bool,
}

impl Write for Interrupted {
    fn write(&mut self, bytes: &[u8]) -> io::Result<usize> {
        self.is_next = !self.is_next;
        if self.is_next {
            return Err(io::Error::from(io::ErrorKind::Interrupted));
        }
        match bytes.first() {
            Some(byte) => {
                self.written.push(*byte)?;
                Ok(1)
            }
            None => Ok(0),
        }
    }

    fn flush(&mut self) -> io::Result<()> {
        Ok(())
    }
}

// An interrupted write is tried again, and a short one goes on.
#[test]
fn interrupted_writes_go_on(rt: HostRuntime) -> Result<(), Fail> {
    let mut writer = Interrupted {
        written: Vec::new(rt.alloc()),
        is_next: false,
    };
    let mut sink = OutSink::make(&mut writer);
    assert_eq!(rt; write_all(&mut sink, b"abc"), Ok(()));
    drop(sink);
    assert_eq!(rt; writer.written.as_slice(), b"abc".as_slice());
    Ok(())
}
