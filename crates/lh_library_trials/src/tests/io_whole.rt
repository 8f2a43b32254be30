//! Whole reads and writes over the system's files and pipes. Reads and writes in memory, each of which fails in turn, are tried by `lh_trials`.
use lh_io::adapter::{StdSink, StdSource};
use lh_io::whole::{ReadAllFault, read_all, write_all};
use std::{fs, io};

/// A function and no constant: a proof need not carry the bytes.
fn text() -> &'static [u8] {
    b"twenty bytes of text"
}

const PATH: &str = "lh_io_whole.tmp";

/// Whether the text was written to the file.
fn is_written(rt: &HostRuntime) -> io::Result<bool> {
    let mut to = StdSink::new(fs::create(rt, PATH)?);
    Ok(write_all(&mut to, text()).is_ok())
}

/// Whether the file gives the text.
fn is_given(rt: &HostRuntime) -> io::Result<bool> {
    let mut from = StdSource::new(fs::open(rt, PATH)?);
    match read_all(rt.alloc(), &mut from, 20) {
        Ok(bytes) => Ok(bytes.as_slice() == text()),
        Err(_) => Ok(false),
    }
}

/// Whether the text is too long for a limit of a byte less, where it comes through a pipe.
fn is_too_long(rt: &HostRuntime) -> io::Result<bool> {
    let (reader, writer) = io::pipe(rt)?;
    let is_put = write_all(&mut StdSink::new(writer), text()).is_ok();
    let answer = read_all(rt.alloc(), &mut StdSource::new(reader), 19);
    Ok(is_put && matches!(answer, Err(ReadAllFault::TooLong)))
}

#[test]
fn a_file_and_a_pipe_give_what_was_written(rt: HostRuntime) -> io::Result<()> {
    let is_written = is_written(&rt)?;
    let is_given = is_given(&rt)?;
    fs::remove_file(&rt, PATH)?;
    let is_too_long = is_too_long(&rt)?;
    assert!(rt; is_written && is_given && is_too_long);
    Ok(())
}
