//! What no clause says of files and streams of the system: their bytes, and where they fail.

use std::alloc::Global;
use std::io::{ErrorKind, Write};
use std::test::Fail;
use std::{fs, io};
use xf_host::files::{FileFail, Files};
use xf_host::real::{RealFiles, RealSink};
use xf_host::sink::{Sink, SinkFail};

/// What a read of at most `max` bytes appends to the byte `>`.
fn read_after_mark<F: Files>(
    alloc: Global,
    files: &mut F,
    path: &str,
    max: usize,
) -> Result<Vec<u8>, FileFail> {
    let mut into = Vec::from_slice(alloc, b">")?;
    files.read(path, max, &mut into)?;
    Ok(into)
}

/// Writes two pieces, and stops at the first that fails.
fn write_two<S: Sink>(sink: &mut S, first: &[u8], second: &[u8]) -> Result<(), SinkFail> {
    sink.write(first)?;
    sink.write(second)
}

#[test]
fn real_files_are_read_to_the_limit(rt: HostRuntime) -> Result<(), Fail> {
    let path = "xf_tests_real_file";
    let mut bytes = vec![in rt.alloc(); b'a'; 10_000]?;
    bytes.push(b'z')?;
    fs::write(&rt, path, &bytes)?;
    let mut files = RealFiles::new(&rt, rt.alloc());
    for (max, want) in [
        (0, 0),
        (5_000, 5_000),
        (10_001, 10_001),
        (usize::MAX, 10_001),
    ] {
        let got = read_after_mark(rt.alloc(), &mut files, path, max)?;
        let mut expected = Vec::from_slice(rt.alloc(), b">")?;
        expected.extend_from_slice(bytes.get(..want).ok_or("short")?)?;
        assert!(rt; got == expected, "at most {max} bytes");
    }
    fs::remove_file(&rt, path)?;
    let absent = read_after_mark(rt.alloc(), &mut files, path, 1);
    assert!(rt; matches!(absent, Err(FileFail::Failed)));
    let folder = read_after_mark(rt.alloc(), &mut files, ".", 1);
    assert!(rt;
        matches!(folder, Err(FileFail::Failed)),
        "it opens, and its read fails"
    );
    Ok(())
}

/// Takes at most three bytes at a call, fails at a `!`, and takes nothing of a `?`.
#[derive(Drop)]
struct Slow {
    taken: Vec<u8>,
}

impl Write for Slow {
    fn write(&mut self, piece: &[u8]) -> io::Result<usize> {
        match piece.first() {
            Some(b'!') => return Err(io::Error::from(ErrorKind::BrokenPipe)),
            Some(b'?') => return Ok(0),
            _ => {}
        }
        let count = piece.len().min(3);
        self.taken.extend_from_slice(&piece[..count])?;
        Ok(count)
    }

    fn flush(&mut self) -> io::Result<()> {
        Ok(())
    }
}

#[test]
fn real_sink_writes_all_or_fails(rt: HostRuntime) -> Result<(), Fail> {
    let mut slow = Slow {
        taken: Vec::new(rt.alloc()),
    };
    {
        let mut sink = RealSink::new(&mut slow);
        write_two(&mut sink, b"in short writes,", b"")?;
        let broken = write_two(&mut sink, b"abc!def", b"not reached");
        assert!(rt; matches!(broken, Err(SinkFail::Failed)));
        let full = write_two(&mut sink, b"ghijkl?", b"not reached");
        assert!(rt; matches!(full, Err(SinkFail::Failed)));
        sink.write(b"end")?;
    }
    assert_eq!(rt;
        slow.taken.as_slice(),
        b"in short writes,abcghijklend".as_slice()
    );
    Ok(())
}
