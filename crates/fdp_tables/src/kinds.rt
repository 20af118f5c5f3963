ghost use Rattle.std.specs.Prelude.{◌≡◌};
ghost use Rattle.fdp_base.specs.CommandKinds.{is_read, is_write};

use fdp_base::Command;

pub fn is_write(command: &Command) -> bool
    ensures { result ≡ is_write command.now }
{
    command.as_write().is_some()
}

pub fn is_read(command: &Command) -> bool
    ensures { result ≡ is_read command.now }
{
    command.as_read().is_some()
}
