//! The output in front of a record.

ghost use Rattle.fdp_reader.specs.Form.{WalksTo};

use crate::lines::next_line;
use crate::place::{Place, step};
use fdp_base::DriveConfig;

/// Where the lines at the front of a text lead that have the form of an output, and the text behind them. It takes no memory.
pub fn read_front<'a>(config: &DriveConfig, text: &'a [u8]) -> (Place, &'a [u8])
    ensures { WalksTo config.now text.now result.0 result.1.now }
{
    let mut place = Place::Start;
    let mut rest = text;
    while let Some((line, after)) = next_line(rest) {
        let Some(next) = step(config, place, line) else {
            return (place, rest);
        };
        place = next;
        rest = after;
    }
    (place, rest)
}
