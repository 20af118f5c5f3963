use fdp_trace::{TraceFault, print_command, read_trace};
use std::alloc::{AllocError, Global};

/// So many commands of a text are printed.
const SHOWN: usize = 20;

/// What a text comes to, as lines: the number of its commands, and the first ones, each in the form of a trace and with all
/// its fields; or its first bad line and the fault.
pub fn answer(alloc: Global, text: &[u8]) -> Result<Vec<u8>, AllocError> {
    let mut lines = Vec::new(alloc);
    match read_trace(alloc, text) {
        Ok(commands) => {
            let count = commands.len();
            lines.extend_from_slice(format!(in alloc; "{count} commands\n")?.as_bytes())?;
            for command in commands.iter().take(SHOWN) {
                print_command(command, &mut lines)?;
                lines.extend_from_slice(format!(in alloc; "\n  {command:?}\n")?.as_bytes())?;
            }
        }
        Err(TraceFault::Line { line, kind }) => {
            lines.extend_from_slice(format!(in alloc;
                "line {line} {}\n",
                kind.word()
            )?.as_bytes())?;
        }
        Err(TraceFault::NoMemory) => lines.extend_from_slice(b"no memory\n")?,
    }
    Ok(lines)
}
