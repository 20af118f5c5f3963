mod flashes;

use fdp_io::{
    Bench, BenchFile, BenchMem, Sink, SinkEnd, SinkMem, SinkWriter, TextRead, read_rest, write_all,
};
use std::alloc::{AllocError, Global};
use std::io::{Cursor, ErrorKind, Read, Write};
use std::test::Fail;
use std::{fs, io};

/// A bench without texts and flashes, of which this call fails.
fn failing_at(alloc: Global, call: u64) -> Result<BenchMem, AllocError> {
    Ok(BenchMem::new(alloc, Vec::from_slice(alloc, &[call])?))
}

/// Adds two texts, and behind them a namesake of the first.
fn add_texts(alloc: Global, bench: &mut BenchMem) -> Result<(), AllocError> {
    bench.add(alloc, "a", b"one")?;
    bench.add(alloc, "b", b"two!")?;
    bench.add(alloc, "a", b"three")
}

/// A bench of these texts. Its second call fails.
fn two_texts(alloc: Global) -> Result<BenchMem, AllocError> {
    let mut bench = failing_at(alloc, 2)?;
    add_texts(alloc, &mut bench)?;
    Ok(bench)
}

/// Whether a read gives all of a text, these bytes.
fn gives(bench: &mut BenchMem, name: &str, text: &mut Vec<u8>, limit: u64, bytes: &[u8]) -> bool {
    bench.read_text(name, text, limit) == TextRead::Done && text.as_slice() == bytes
}

/// Whether a read of a text ends so, with so many faults counted by then.
fn ends<B: Bench>(
    bench: &mut B,
    name: &str,
    text: &mut Vec<u8>,
    limit: u64,
    answer: TextRead,
    faults: u64,
) -> bool {
    bench.read_text(name, text, limit) == answer && bench.faults() == faults
}

#[test]
fn texts_are_read(rt: HostRuntime) -> Result<(), Fail> {
    let mut bench = two_texts(rt.alloc())?;
    let mut text = Vec::from_slice(rt.alloc(), b"before")?;
    assert!(rt; gives(&mut bench, "a", &mut text, 3, b"one"));
    assert!(rt; ends(&mut bench, "a", &mut text, 3, TextRead::Failed, 1));
    assert!(rt; ends(&mut bench, "b", &mut text, 3, TextRead::TooLong, 1));
    assert!(rt; gives(&mut bench, "b", &mut text, 4, b"two!"));
    assert!(rt; ends(&mut bench, "c", &mut text, 4, TextRead::Missing, 1));
    Ok(())
}

/// A sink with room for four bytes. Its second call fails.
fn four_bytes(alloc: Global) -> Result<SinkMem, AllocError> {
    SinkMem::new(alloc, 4, Vec::from_slice(alloc, &[2])?)
}

/// Whether one write ends so, with so many faults counted by then.
fn takes<K: Sink>(sink: &mut K, bytes: &[u8], end: SinkEnd, faults: u64) -> bool {
    sink.write(bytes) == end && sink.faults() == faults
}

/// Whether a write of all the bytes succeeds or not, as is said, and the sink holds these then.
fn fills(sink: &mut SinkMem, bytes: &[u8], whole: bool, held: &[u8]) -> bool {
    write_all(sink, bytes).is_ok() == whole && sink.bytes() == held
}

#[test]
fn bytes_are_taken(rt: HostRuntime) -> Result<(), Fail> {
    let mut sink = four_bytes(rt.alloc())?;
    assert!(rt; takes(&mut sink, b"ab", SinkEnd::Took(2), 0));
    assert!(rt; takes(&mut sink, b"cd", SinkEnd::Failed, 1));
    assert!(rt; fills(&mut sink, b"c", true, b"abc"));
    assert!(rt; fills(&mut sink, b"defg", false, b"abcd"));
    assert!(rt; takes(&mut sink, b"", SinkEnd::Took(0), 2));
    Ok(())
}

/// A writer and a reader of two bytes a call. From the call with the number `last` on it fails, or gives and takes nothing.
#[derive(Drop)]
struct Slow {
    bytes: Vec<u8>,
    calls: usize,
    last: usize,
    fails: bool,
}

impl Slow {
    /// Counts a call, and gives the most bytes that it moves.
    fn begin(&mut self) -> io::Result<usize> {
        self.calls = self.calls.saturating_add(1);
        if self.calls < self.last {
            Ok(2)
        } else if self.fails {
            Err(io::Error::from(ErrorKind::BrokenPipe))
        } else {
            Ok(0)
        }
    }
}

impl Write for Slow {
    fn write(&mut self, buf: &[u8]) -> io::Result<usize> {
        let count = self.begin()?.min(buf.len());
        self.bytes.extend_from_slice(&buf[..count])?;
        Ok(count)
    }

    fn flush(&mut self) -> io::Result<()> {
        Ok(())
    }
}

impl Read for Slow {
    fn read(&mut self, buf: &mut [u8]) -> io::Result<usize> {
        let count = self.begin()?.min(buf.len());
        for byte in &mut buf[..count] {
            *byte = b'x';
        }
        Ok(count)
    }
}

fn made_slow(alloc: Global, last: usize, fails: bool) -> Slow {
    Slow {
        bytes: Vec::new(alloc),
        calls: 0,
        last,
        fails,
    }
}

/// Whether a writer that ends so receives this of six bytes, where the sink over it says that all were taken or that a write
/// failed, and counts just that.
fn claims(alloc: Global, last: usize, fails: bool, text: &[u8]) -> bool {
    let mut writer = made_slow(alloc, last, fails);
    let mut sink = SinkWriter::new(&mut writer);
    let whole = write_all(&mut sink, b"abcdef").is_ok();
    let told = sink.faults() == u64::from(!whole) && whole == (last > 3);
    drop(sink);
    told && writer.bytes.as_slice() == text
}

#[test]
fn a_sink_claims_what_its_writer_took(rt: HostRuntime) {
    assert!(rt; claims(rt.alloc(), 1, false, b""));
    assert!(rt; claims(rt.alloc(), 2, false, b"ab"));
    assert!(rt; claims(rt.alloc(), 3, false, b"abcd"));
    assert!(rt; claims(rt.alloc(), 4, false, b"abcdef"));
    assert!(rt; claims(rt.alloc(), 1, true, b""));
    assert!(rt; claims(rt.alloc(), 2, true, b"ab"));
    assert!(rt; claims(rt.alloc(), 3, true, b"abcd"));
    assert!(rt; claims(rt.alloc(), 4, true, b"abcdef"));
}

#[test]
fn nothing_is_always_taken(rt: HostRuntime) {
    let mut sink = SinkWriter::new(made_slow(rt.alloc(), 1, false));
    assert!(rt; takes(&mut sink, b"", SinkEnd::Took(0), 0));
}

/// Whether a read of what a reader has left ends so, and this stands in the text then.
fn rests<F: Read + Drop>(
    file: F,
    text: &mut Vec<u8>,
    limit: u64,
    answer: TextRead,
    bytes: &[u8],
) -> bool {
    read_rest(file, text, limit) == answer && text.as_slice() == bytes
}

/// Whether that holds of a reader whose third call fails, or gives nothing.
fn slow_rests(
    alloc: Global,
    fails: bool,
    text: &mut Vec<u8>,
    limit: u64,
    answer: TextRead,
    bytes: &[u8],
) -> bool {
    rests(made_slow(alloc, 3, fails), text, limit, answer, bytes)
}

#[test]
fn a_reader_is_read_to_its_end(rt: HostRuntime) -> Result<(), Fail> {
    let alloc = rt.alloc();
    let mut text = Vec::from_slice(alloc, b"before")?;
    assert!(rt; slow_rests(alloc, true, &mut text, 9, TextRead::Failed, b"before"));
    assert!(rt; slow_rests(alloc, false, &mut text, 3, TextRead::TooLong, b"before"));
    assert!(rt; slow_rests(alloc, false, &mut text, 4, TextRead::Done, b"xxxx"));
    let short = Cursor::new(b"abc".as_slice());
    assert!(rt; rests(short, &mut text, u64::MAX, TextRead::Done, b"abc"));
    Ok(())
}

const NAME: &str = "fdp_io_bench_file";

const MISSING: &str = "fdp_io_no_file";

const BEHIND: &str = "fdp_io_bench_file/text";

/// Whether a read of a file ends so, with so many faults counted by then, and this stands in the place of another text then.
fn reads<B: Bench>(
    alloc: Global,
    bench: &mut B,
    name: &str,
    limit: u64,
    answer: TextRead,
    faults: u64,
    text: &[u8],
) -> bool {
    match Vec::from_slice(alloc, b"before") {
        Ok(mut into) => {
            let told = ends(bench, name, &mut into, limit, answer, faults);
            told && into.as_slice() == text
        }
        Err(_) => false,
    }
}

/// A file of five bytes, none of its name, a name behind it, a name that no file can have, and a folder.
#[test]
fn files_are_read(rt: HostRuntime) -> Result<(), Fail> {
    let alloc = rt.alloc();
    fs::write(&rt, NAME, "text\n")?;
    let mut bench = BenchFile::new(alloc, &rt);
    assert!(rt; reads(alloc, &mut bench, NAME, 5, TextRead::Done, 0, b"text\n"));
    assert!(rt; reads(alloc, &mut bench, NAME, 6, TextRead::Done, 0, b"text\n"));
    assert!(rt; reads(alloc, &mut bench, NAME, 4, TextRead::TooLong, 0, b"before"));
    assert!(rt;
        reads(
            alloc,
            &mut bench,
            MISSING,
            5,
            TextRead::Missing,
            0,
            b"before"
        )
    );
    assert!(rt; reads(alloc, &mut bench, BEHIND, 5, TextRead::Failed, 1, b"before"));
    assert!(rt; reads(alloc, &mut bench, "\0", 5, TextRead::Failed, 2, b"before"));
    assert!(rt; reads(alloc, &mut bench, ".", 5, TextRead::Failed, 3, b"before"));
    fs::remove_file(&rt, NAME)?;
    Ok(())
}
