use fdp_base::Status;
use fdp_layouts::StatusField;
use std::io;

/// Tells the status field that these hexadecimal codes make, of the type and the code of a status, and its status.
pub fn tell_status(rt: &HostRuntime, codes: &str) -> io::Result<()> {
    let mut status = [0; 2];
    if hex::decode_to_slice(codes, &mut status).is_err() || status[0] >= 8 {
        return println!(rt; "{codes}: no status");
    }
    let field = StatusField::new(
        true,
        Status {
            sct: status[0],
            sc: status[1],
        },
    );
    println!(rt; "{:04x} {field:?} {:?}", field.code(), field.status())
}
