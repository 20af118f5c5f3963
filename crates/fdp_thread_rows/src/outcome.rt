use fdp_cli::drive_top;
use fdp_io::{BenchMem, Gate, SinkMem};
use std::alloc::{AllocError, Global};
use std::sync::Wait;
use std::thread::Threads;

/// The status of a run, and what its sink then holds.
#[derive(Drop)]
pub struct Outcome {
    pub status: u8,
    pub output: Vec<u8>,
}

/// The words of a command line.
pub fn spelled(alloc: Global, words: &[&str]) -> Result<Vec<String>, AllocError> {
    let mut asked = Vec::new(alloc);
    for word in words {
        asked.push(String::from_str(alloc, word)?)?;
    }
    Ok(asked)
}

/// Makes a run over a bench, with room for so many bytes of its output.
pub fn run<G: Gate + Sync, R: Threads + Wait + Sync>(
    rt: &R,
    alloc: Global,
    words: &[&str],
    bench: &mut BenchMem,
    room: usize,
    gate: &G,
) -> Result<Outcome, AllocError> {
    let asked = spelled(alloc, words)?;
    let mut sink = SinkMem::new(alloc, room, Vec::new(alloc))?;
    let status = drive_top(rt, alloc, &asked, bench, &mut sink, gate);
    Ok(Outcome {
        status,
        output: Vec::from_slice(alloc, sink.bytes())?,
    })
}

impl Outcome {
    /// How many lines of the output are those of completions with this status.
    pub fn count(&self, status: &[u8]) -> usize {
        let mut count = 0usize;
        for line in self.output.split(|byte| *byte == b'\n') {
            if has_status(line, status) {
                count = count.saturating_add(1);
            }
        }
        count
    }
}

/// Whether a line is that of a completion with this status: its number, its word, the status and dword 0.
fn has_status(line: &[u8], status: &[u8]) -> bool {
    let mut words = line.split(|byte| *byte == b' ');
    let (Some(_number), Some(_word), Some(told), Some(dword)) = (
        words.next(),
        words.next(),
        words.next(),
        words.next(),
    ) else {
        return false;
    };
    told == status && dword.len() == 8 && words.next().is_none()
}
