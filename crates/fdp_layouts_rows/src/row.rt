ghost use Rattle.std.specs.Prelude.{◌^◌, ◌<◌};

use fdp_layouts::Frame;
use std::fmt::Debug;
use std::io;

/// Tells the bytes of the value that bytes hold, and its fields as they are read of those bytes again, or why they hold
/// none.
pub fn tell_row<const N: usize, F: Frame<N> + Debug + Drop>(
    rt: &HostRuntime,
    text: &str,
) -> io::Result<()>
    requires { N < 2 ^ 63 }
{
    let mut bytes = [0; N];
    if hex::decode_to_slice(text, &mut bytes).is_err() {
        return println!(rt; "{text}: not {N} bytes");
    }
    match F::decode(&bytes).and_then(|value| value.round_trip()) {
        Ok(value) => {
            let again = hex::encode(rt.alloc(), value.encode().as_slice())?;
            println!(rt; "{again} {value:?}")
        }
        Err(fault) => println!(rt; "{fault:?}"),
    }
}
