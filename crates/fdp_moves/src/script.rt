//! A script: rows that follow one another.
use crate::drive::Drive;
use crate::rows::Rows;
use std::alloc::{AllocError, Global};

/// Plays the rows of a script on drives, and gives each back with its answer behind it.
pub fn play_script<D: Drive>(alloc: Global, script: &str) -> Result<String, AllocError> {
    let mut rows: Rows<D> = Rows::new(alloc);
    let mut output = String::new(alloc);
    for row in script.lines() {
        output.push_str(row)?;
        output.push('\n')?;
        let answer = rows.answer(alloc, row.trim())?;
        push_answer(&mut output, &answer)?;
    }
    Ok(output)
}

/// Puts an answer behind its row, unless it is empty.
fn push_answer(output: &mut String, answer: &str) -> Result<(), AllocError> {
    if answer.is_empty() {
        return Ok(());
    }
    output.push_str("  ")?;
    output.push_str(answer)?;
    output.push('\n')
}
