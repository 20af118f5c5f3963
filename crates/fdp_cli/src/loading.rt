ghost use Rattle.std.specs.Prelude.{◌≡◌};
ghost use Rattle.fdp_cli.specs.Loading.{of_opening};

use fdp_drive::OpenFault;
use fdp_finding::{Fault, ImageFault};

/// Why a drive was not opened, as a fault of the run.
pub fn fault_of(cause: OpenFault) -> Fault
    ensures { result ≡ of_opening cause }
{
    match cause {
        OpenFault::OtherConfig { key } => Fault::Image(ImageFault::Other { key }),
        OpenFault::NotADrive => Fault::Image(ImageFault::NotADrive),
        OpenFault::BadImage { page } => Fault::Image(ImageFault::Bad { page }),
        OpenFault::FlashFault { moment: _ } => Fault::Flash,
        OpenFault::Spent => Fault::Image(ImageFault::Spent),
        OpenFault::NoMemory => Fault::NoMemory,
    }
}
