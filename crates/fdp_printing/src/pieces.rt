//! The buffer of a text, which is written in pieces.

ghost use Rattle.std.specs.Prelude.{◌≡◌, ◌≢◌, [], OnOk, IfErr};
ghost use Rattle.fdp_printing.specs.Printing.{PrintsOn};

use fdp_io::{Sink, write_all};

/// Text is written as soon as so many bytes of it are there.
const PIECE: usize = 65_536;

/// Why a text was not printed whole.
#[derive(Clone, Copy, Debug, PartialEq, Eq)]
pub enum Cut {
    /// A write of the sink failed.
    Sink,
    NoMemory,
}

/// Writes the text as soon as it is a piece long, and goes on with an empty one.
pub fn write_piece<K: Sink>(text: &mut Vec<u8>, sink: &mut K) -> Result<(), Cut>
    ensures prints { PrintsOn (K.state sink.old) (K.state sink.new) text.old.items text.new.items [] result }
    ensures memory { IfErr result (λ cut. cut ≢ Cut.NoMemory) }
{
    if text.len() < PIECE {
        return Ok(());
    }
    write_rest(text, sink)
}

/// Writes the text, and goes on with an empty one.
pub fn write_rest<K: Sink>(text: &mut Vec<u8>, sink: &mut K) -> Result<(), Cut>
    ensures prints { PrintsOn (K.state sink.old) (K.state sink.new) text.old.items text.new.items [] result }
    ensures empty { OnOk result (text.new.items ≡ []) }
    ensures memory { IfErr result (λ cut. cut ≢ Cut.NoMemory) }
{
    if write_all(sink, text).is_err() {
        return Err(Cut::Sink);
    }
    text.clear();
    Ok(())
}
