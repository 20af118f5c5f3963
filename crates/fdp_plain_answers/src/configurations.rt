ghost use Rattle.fdp_base.specs.Config.{IsValidConfig};
ghost use Rattle.fdp_rules.specs.LogPages.{configurations_log, descriptor};
ghost use Rattle.std.specs.Prelude.{◌≡◌, ◌++◌, flat_map, OnOk, IfOk};

use fdp_base::DriveConfig;
use fdp_logs::{configurations_head, push_descriptor};
use std::alloc::{AllocError, Global};

/// Log 20h: how many configurations, from 0 on; version 0; the size of the log; each configuration.
pub(crate) fn configurations_log(config: &DriveConfig, alloc: Global) -> Result<Vec<u8>, AllocError>
    requires { IsValidConfig config.now }
    ensures { IfOk result (λ log. log.items ≡ configurations_log config.now) }
{
    let count = config.fdp.as_slice().len();
    let mut descriptors = Vec::new(alloc);
    push_descriptors(config, &mut descriptors)?;
    let size = (16 + descriptors.len() as u64) % 0x1_0000_0000;
    let mut log = Vec::new(alloc);
    log.extend_from_slice(&configurations_head(count as u16 - 1, size as u32))?;
    log.extend_from_slice(descriptors.as_slice())?;
    Ok(log)
}

fn push_descriptors(config: &DriveConfig, log: &mut Vec<u8>) -> Result<(), AllocError>
    requires { IsValidConfig config.now }
    ensures { OnOk result (log.new.items ≡ log.old.items ++ flat_map (descriptor config.now) config.now.fdp) }
{
    let count = config.fdp.as_slice().len() as u8;
    for index in 0..count {
        push_descriptor(log, config, config.classes(true, index))?;
    }
    Ok(())
}
