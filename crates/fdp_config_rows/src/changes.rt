//! Changes of a text: `key:value` with `|` between, an empty value where the key is left out.

use std::alloc::{AllocError, Global};

/// The text with some keys changed, left out or added behind it.
pub fn changed(alloc: Global, base: &str, changes: &str) -> Result<String, AllocError> {
    let mut text = String::new(alloc);
    for row in base.lines() {
        let key = row.split_once(" = ").map_or(row, |(key, _)| key);
        match change_of(changes, key) {
            Some("") => {}
            Some(value) => text.push_str(format!(in alloc; "{key} = {value}\n")?.as_str())?,
            None => text.push_str(format!(in alloc; "{row}\n")?.as_str())?,
        }
    }
    for change in changes.split('|') {
        if let Some((key, value)) = change.split_once(':')
            && !has_key(base, key)
        {
            text.push_str(format!(in alloc; "{key} = {value}\n")?.as_str())?;
        }
    }
    Ok(text)
}

/// The value that the changes have for a key.
fn change_of<'a>(changes: &'a str, key: &str) -> Option<&'a str> {
    for change in changes.split('|') {
        if let Some((changed, value)) = change.split_once(':')
            && changed == key
        {
            return Some(value);
        }
    }
    None
}

fn has_key(base: &str, key: &str) -> bool {
    for row in base.lines() {
        if let Some((known, _)) = row.split_once(" = ")
            && known == key
        {
            return true;
        }
    }
    false
}
