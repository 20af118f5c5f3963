ghost use Rattle.std.specs.Prelude.{◌^◌, ◌<◌};

use fdp_layouts::{BadFrame, Frame};
use std::io;

/// Tells of each byte what comes of its bits alone, bit 0 first.
pub fn tell_bits<const N: usize, F: Frame<N> + Drop>(rt: &HostRuntime) -> io::Result<()>
    requires { N < 2 ^ 63 }
{
    for at in 0..N {
        print!(rt; "{at}:")?;
        for bit in [1u8, 2, 4, 8, 16, 32, 64, 128] {
            print!(rt; " {}", fate::<N, F>(at, bit))?;
        }
        println!(rt)?;
    }
    Ok(())
}

/// Of one bit alone: a value with these bytes, or the fault that its own byte has.
fn fate<const N: usize, F: Frame<N> + Drop>(at: usize, bit: u8) -> &'static str
    requires small { N < 2 ^ 63 }
    requires inside { at < N }
{
    let mut bytes = [0; N];
    bytes[at] = bit;
    match F::decode(&bytes) {
        Ok(value) if value.encode() == bytes => "value",
        Err(BadFrame::Reserved { at: told }) if told == at => "reserved",
        Err(BadFrame::Range { at: told }) if told == at => "range",
        Ok(_) | Err(_) => "other",
    }
}
