use std::alloc::{AllocError, Global};

/// A text that a run may read.
#[derive(Drop)]
pub struct Text {
    pub name: String,
    pub bytes: Vec<u8>,
}

impl Text {
    pub fn new(alloc: Global, name: &str) -> Result<Text, AllocError> {
        Ok(Text {
            name: String::from_str(alloc, name)?,
            bytes: Vec::new(alloc),
        })
    }

    /// A text by its name and words of hexadecimal digits, each alone or as `WORD*COUNT`.
    pub fn of_hex(alloc: Global, line: &str) -> Result<Text, AllocError> {
        let (name, words) = line.split_once(' ').unwrap_or((line, ""));
        let mut text = Text::new(alloc, name)?;
        for word in words.split_whitespace() {
            let (digits, count) = word.split_once('*').unwrap_or((word, "1"));
            if let Ok(part) = hex::decode(alloc, digits) {
                for _ in 0..count.parse::<u16>().unwrap_or(0) {
                    text.bytes.extend_from_slice(part.as_slice())?;
                }
            }
        }
        Ok(text)
    }
}
