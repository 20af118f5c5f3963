ghost use Rattle.std.specs.Prelude.{◌≡◌, OnErr, OnOk, false, true};
ghost use Rattle.std.specs.BTreeSet.{contains_text};
ghost use Rattle.fdp_io.specs.BenchFile.{AddsName, SetsName};

use std::alloc::{AllocError, Global};
use std::collections::BTreeSet;

/// Adds a name, and says whether it was not there before.
pub fn add_name(alloc: Global, names: &mut BTreeSet<String>, name: &str) -> Result<bool, AllocError>
    ensures { AddsName names.old names.new name.now result }
{
    if names.contains(name) {
        return Ok(false);
    }
    insert(alloc, names, name)?;
    Ok(true)
}

fn insert(alloc: Global, names: &mut BTreeSet<String>, name: &str) -> Result<(), AllocError>
    ensures ok { OnOk result (SetsName names.old names.new name.now true) }
    ensures err { OnErr result (contains_text names.new ≡ contains_text names.old) }
{
    let name = String::from_str(alloc, name)?;
    names.insert(name)?;
    Ok(())
}

/// Takes a name away.
pub fn remove_name(names: &mut BTreeSet<String>, name: &str)
    ensures { SetsName names.old names.new name.now false }
{
    names.remove(name);
}
