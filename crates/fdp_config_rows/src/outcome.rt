ghost use Rattle.fdp_base.specs.Config.{IsInRange};

use fdp_base::DriveConfig;
use fdp_config::{ConfigFault, read_config};
use std::alloc::{AllocError, Global};

/// What a text reads as: `ok`, or the words of its fault with its numbers.
pub fn outcome(alloc: Global, text: &[u8]) -> Result<String, AllocError> {
    match read_config(alloc, text) {
        Ok(_) => String::from_str(alloc, "ok"),
        Err(fault) => words(alloc, &fault),
    }
}

/// What a text reads as, with the figures of the configuration, as lines.
pub fn figures(alloc: Global, text: &[u8]) -> Result<String, AllocError> {
    match read_config(alloc, text) {
        Ok(config) => described(alloc, &config),
        Err(fault) => {
            let mut line = words(alloc, &fault)?;
            line.push('\n')?;
            Ok(line)
        }
    }
}

fn words(alloc: Global, fault: &ConfigFault) -> Result<String, AllocError> {
    match fault {
        ConfigFault::Range { key, value } => {
            format!(in alloc; "config range {} {value}", key.word())
        }
        ConfigFault::NoRoom { needed, budget } => {
            format!(in alloc; "config room {needed} {budget}")
        }
        fault => format!(in alloc; "{fault}"),
    }
}

/// The cut of the flash, the handles, the budgets of a group without loss and with two and seven units lost, and the pages
/// of a checkpoint.
fn described(alloc: Global, config: &DriveConfig) -> Result<String, AllocError>
    requires { IsInRange config.now }
{
    let geometry = config.geometry();
    let index = config.index;
    let handles = config.handle_count(true, index);
    let flash = format!(in alloc;
        "ok\nunits {} {} pages {} {}\n",
        geometry.data_units(),
        geometry.all_units(),
        geometry.all_pages(),
        geometry.area_pages()
    )?;
    let placement = format!(in alloc;
        "group bits {} handles {handles} {} {:?} {:?}\n",
        config.group_bits(),
        config.handle_count(false, index),
        config.classes(true, index),
        config.classes(false, index)
    )?;
    let room = format!(in alloc;
        "budgets {} {} {} checkpoint {} namespaces {}\n",
        config.budget(handles, 0),
        config.budget(handles, 2),
        config.budget(handles, 7),
        config.checkpoint_pages(),
        config.namespaces.as_slice().len()
    )?;
    let mut text = flash;
    text.push_str(placement.as_str())?;
    text.push_str(room.as_str())?;
    Ok(text)
}
