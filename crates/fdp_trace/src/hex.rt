//! Numbers and bytes in hexadecimal, in lower case.

ghost use Rattle.std.specs.Prelude.{◌≡◌, ◌^◌, ◌<◌, ◌++◌, OnOk, OnErr};
ghost use Rattle.fdp_base.specs.Text.{hex, hex_bytes};
ghost use Rattle.fdp_trace.specs.Printer.{Extends};

use fdp_base::hex_digit;
use std::alloc::AllocError;

/// Adds the lowest digits of a number, the highest of them first. An `Err` may leave some of them.
#[tactic(auto, unfolding(fdp_base::specs::Text::hex))]
pub fn push_hex(text: &mut Vec<u8>, digits: u8, n: u32) -> Result<(), AllocError>
    ensures ok { OnOk result (text.new.items ≡ text.old.items ++ hex digits n) }
    ensures err { OnErr result (Extends text.old.items text.new.items) }
{
    if digits == 0 {
        return Ok(());
    }
    push_hex(text, digits - 1, n / 16)?;
    text.push(hex_digit((n % 16) as u8))?;
    Ok(())
}

/// Adds two digits for each byte.
pub fn push_hex_bytes(text: &mut Vec<u8>, bytes: &[u8]) -> Result<(), AllocError>
    ensures ok { OnOk result (text.new.items ≡ text.old.items ++ hex_bytes bytes.now) }
    ensures err { OnErr result (Extends text.old.items text.new.items) }
{
    for b in bytes {
        push_hex(text, 2, u32::from(*b))?;
    }
    Ok(())
}
