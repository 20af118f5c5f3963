use anyhow::Result;
use std::alloc::Global;

/// Bytes by words of hexadecimal digits, each alone or as `WORD*COUNT`.
pub fn bytes_of(alloc: Global, text: &str) -> Result<Vec<u8>> {
    let mut bytes = Vec::new(alloc);
    for word in text.split_whitespace() {
        match word.split_once('*') {
            Some((digits, count)) => {
                let part = hex::decode(alloc, digits)?;
                for _ in 0..count.parse::<u16>()? {
                    bytes.extend_from_slice(part.as_slice())?;
                }
            }
            None => bytes.extend_from_slice(hex::decode(alloc, word)?.as_slice())?,
        }
    }
    Ok(bytes)
}
