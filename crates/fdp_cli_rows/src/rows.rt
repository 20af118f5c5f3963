use crate::image::Image;
use crate::in_turn::InTurn;
use crate::repeat::Repeat;
use crate::text::Text;
use fdp_cli::drive_top;
use fdp_io::{BenchMem, SinkMem};
use fdp_trace::read_trace;
use std::alloc::{AllocError, Global};
use std::sync::Wait;
use std::thread::Threads;

/// Room for every output of these rows.
const AMPLE: usize = 1 << 20;

/// The texts that were named, of which the last of a name counts, and what the next run does otherwise than others.
#[derive(Drop)]
pub struct Rows {
    texts: Vec<Text>,
    /// The text whose lines follow.
    open: Option<Text>,
    /// Lines of it that are to be repeated.
    repeat: Option<Repeat>,
    image: Image,
    bench_fails: Option<u64>,
    sink_fails: Option<u64>,
    room: usize,
}

impl Rows {
    pub fn new(alloc: Global) -> Rows {
        Rows {
            texts: Vec::new(alloc),
            open: None,
            repeat: None,
            image: Image::none(),
            bench_fails: None,
            sink_fails: None,
            room: AMPLE,
        }
    }

    /// Takes a line: one of a text, or a command.
    pub fn take<R: Threads + Wait + Sync>(
        &mut self,
        rt: &R,
        alloc: Global,
        line: &[u8],
        output: &mut Vec<u8>,
    ) -> Result<(), AllocError> {
        match self.open.take() {
            Some(text) => self.go_on(alloc, text, line),
            None => match str::from_utf8(line) {
                Ok(line) => self.command(rt, alloc, line, output),
                Err(_) => Ok(()),
            },
        }
    }

    /// A line of a text. A dot ends it, and a dot with a tilde ends it without the end of its last line. A star with three numbers begins lines
    /// that are repeated for each number from the first to the second, by the third, and a star ends them.
    fn go_on(&mut self, alloc: Global, mut text: Text, line: &[u8]) -> Result<(), AllocError> {
        if line == b".~".as_slice() {
            text.bytes.pop();
        } else if line != b".".as_slice() {
            self.add_line(alloc, &mut text, line)?;
            self.open = Some(text);
            return Ok(());
        }
        self.texts.push(text)?;
        Ok(())
    }

    fn add_line(&mut self, alloc: Global, text: &mut Text, line: &[u8]) -> Result<(), AllocError> {
        match self.repeat.take() {
            Some(repeat) if line == b"*".as_slice() => repeat.add_to(&mut text.bytes),
            Some(mut repeat) => {
                repeat.push(line)?;
                self.repeat = Some(repeat);
                Ok(())
            }
            None => {
                self.repeat = Repeat::of(alloc, line);
                if self.repeat.is_none() {
                    text.bytes.extend_from_slice(line)?;
                    text.bytes.push(b'\n')?;
                }
                Ok(())
            }
        }
    }

    /// `text NAME` begins a text, and `bytes NAME WORD..` is one; `bench N` and `sink N` let that call of the next run fail, and `room N` gives its sink so
    /// much room; `again` lets it find the flash that the last run left, `tear PAGE` tears a page of that, and `flash N` lets it find a blank
    /// flash whose call N fails; `run WORD..` makes it. An underscore is an empty word.
    fn command<R: Threads + Wait + Sync>(
        &mut self,
        rt: &R,
        alloc: Global,
        line: &str,
        output: &mut Vec<u8>,
    ) -> Result<(), AllocError> {
        let (word, rest) = line.split_once(' ').unwrap_or((line, ""));
        match word {
            "text" => self.open = Some(Text::new(alloc, rest)?),
            "bytes" => self.texts.push(Text::of_hex(alloc, rest)?)?,
            "bench" => self.bench_fails = rest.parse().ok(),
            "sink" => self.sink_fails = rest.parse().ok(),
            "room" => self.room = rest.parse().unwrap_or(AMPLE),
            "again" => self.image.stay(),
            "tear" => self.image.tear(alloc, rest.parse().unwrap_or(usize::MAX))?,
            "flash" => self.image.fail(alloc, rest.parse().unwrap_or(0))?,
            "run" => self.run(rt, alloc, rest, output)?,
            _ => {}
        }
        Ok(())
    }

    fn run<R: Threads + Wait + Sync>(
        &mut self,
        rt: &R,
        alloc: Global,
        words: &str,
        output: &mut Vec<u8>,
    ) -> Result<(), AllocError> {
        let words = words_of(alloc, words)?;
        let mut bench = BenchMem::new(alloc, failing(alloc, self.bench_fails.take())?);
        for text in self.texts.iter().rev() {
            bench.add(alloc, &text.name, &text.bytes)?;
        }
        let image = image_of(&words);
        self.image.lay(alloc, &mut bench, image)?;
        let mut sink = SinkMem::new(alloc, self.room, failing(alloc, self.sink_fails.take())?)?;
        self.room = AMPLE;
        let gate = self.gate_of(alloc, &words)?;
        let status = drive_top(rt, alloc, &words, &mut bench, &mut sink, &gate);
        self.image.keep(alloc, &mut bench, image);
        push_end(alloc, status, sink.bytes(), output)
    }

    /// A gate with which the traces of a run are served one after another.
    fn gate_of(&self, alloc: Global, words: &[String]) -> Result<InTurn, AllocError> {
        let mut gate = InTurn::open(alloc);
        for word in words.iter().skip(3) {
            gate.add(self.commands_of(alloc, word.as_str()))?;
        }
        Ok(gate)
    }

    /// How many commands the trace of a name has, none where there is none.
    fn commands_of(&self, alloc: Global, name: &str) -> usize {
        let Some(text) = self
            .texts
            .iter()
            .rev()
            .find(|text| text.name.as_str() == name)
        else {
            return 0;
        };
        match read_trace(alloc, &text.bytes) {
            Ok(commands) => commands.len(),
            Err(_) => 0,
        }
    }
}

fn words_of(alloc: Global, line: &str) -> Result<Vec<String>, AllocError> {
    let mut words = Vec::new(alloc);
    if line.is_empty() {
        return Ok(words);
    }
    for word in line.split(' ') {
        let word = if word == "_" { "" } else { word };
        words.push(String::from_str(alloc, word)?)?;
    }
    Ok(words)
}

/// The name of the image, or an empty one.
fn image_of(words: &[String]) -> &str {
    match words.get(2) {
        Some(word) => word.as_str(),
        None => "",
    }
}

fn failing(alloc: Global, call: Option<u64>) -> Result<Vec<u64>, AllocError> {
    let mut calls = Vec::new(alloc);
    if let Some(call) = call {
        calls.push(call)?;
    }
    Ok(calls)
}

/// The status of a run, how many bytes its sink then holds, and these.
fn push_end(
    alloc: Global,
    status: u8,
    held: &[u8],
    output: &mut Vec<u8>,
) -> Result<(), AllocError> {
    let count = held.len();
    let line = format!(in alloc; "status {status}, bytes {count}\n")?;
    output.extend_from_slice(line.as_bytes())?;
    output.extend_from_slice(held)?;
    if held.last() != Some(&b'\n') && !held.is_empty() {
        output.push(b'\n')?;
    }
    Ok(())
}
