ghost use Rattle.std.specs.Prelude.{◌≡◌, ◌+◌, ◌*◌, ◌-◌, ◌≤◌, ◌++◌, ◌∷◌, [], length, flat_map, OnOk};
ghost use Rattle.std.specs.Int.{to_le_bytes, w16, w32, w64};
ghost use Rattle.fdp_base.specs.Codes.{class_code};
ghost use Rattle.fdp_base.specs.Config.{IsInRange};
ghost use Rattle.fdp_base.specs.Placement.{group_bits};
ghost use Rattle.fdp_rules.specs.LogPages.{descriptor, descriptor_size, zeros};

use fdp_base::{Class, DriveConfig, MOST_NAMESPACES, MOST_PIDS};
use fdp_layouts::{Attributes, ConfigDesc, ConfigHead, Frame, GroupBits, RuhClass};
use std::alloc::AllocError;

/// The head of log 20h: the number of the last configuration, version 0, and the bytes of the whole log.
pub fn configurations_head(last: u16, size: u32) -> [u8; 16]
    ensures { result ≡ to_le_bytes w16 last ++ zeros 2 ++ to_le_bytes w32 size ++ zeros 8 }
{
    ConfigHead {
        configurations: last,
        size,
    }
    .encode()
}

/// A configuration of log 20h with so many reclaim unit handles, up to their classes: its size; the bits of a group and
/// the valid bit; no vendor bytes; groups; handles; placement identifiers of an update, from 0 on; namespaces; bytes of a
/// unit; no time limit.
pub fn descriptor_head(config: &DriveConfig, handles: u16) -> [u8; 64]
    requires ranges { IsInRange config.now }
    requires few { handles ≤ 16 }
    ensures { result ≡
        to_le_bytes w16 (descriptor_size handles) ++ (128 + group_bits config.now.groups) ∷ 0 ∷ []
        ++ to_le_bytes w32 config.now.groups ++ to_le_bytes w16 handles ++ to_le_bytes w16 (MOST_PIDS - 1) ++ to_le_bytes w32 MOST_NAMESPACES
        ++ to_le_bytes w64 (config.now.unit_pages * config.now.block) ++ to_le_bytes w32 0 ++ zeros 36 }
{
    ConfigDesc {
        size: descriptor_size(handles),
        attributes: Attributes {
            rgif: GroupBits::new(config.group_bits()),
            volatile_cache: false,
            valid: true,
        },
        nrg: u32::from(config.groups),
        nruh: handles,
        max_pids: MOST_PIDS as u16 - 1,
        nnss: MOST_NAMESPACES,
        runs: u64::from(config.unit_pages) * u64::from(config.block),
        erutl: 0,
    }
    .encode()
}

/// The class of a reclaim unit handle in log 20h.
pub fn class_frame(class: Class) -> [u8; 4]
    ensures { result ≡ class_code class ∷ zeros 3 }
{
    RuhClass { class }.encode()
}

/// Appends a configuration of log 20h.
pub fn push_descriptor(
    log: &mut Vec<u8>,
    config: &DriveConfig,
    classes: &[Class],
) -> Result<(), AllocError>
    requires ranges { IsInRange config.now }
    requires few { length classes.now ≤ 16 }
    ensures { OnOk result (log.new.items ≡ log.old.items ++ descriptor config.now classes.now) }
{
    let handles = classes.len() as u16;
    log.extend_from_slice(&descriptor_head(config, handles))?;
    push_classes(log, classes)?;
    push_zeros(log, descriptor_size(handles) - (64 + 4 * handles))?;
    Ok(())
}

fn push_classes(log: &mut Vec<u8>, classes: &[Class]) -> Result<(), AllocError>
    ensures { OnOk result (log.new.items ≡ log.old.items ++ flat_map (λ class. class_code class ∷ zeros 3) classes.now) }
{
    for class in classes {
        log.extend_from_slice(&class_frame(*class))?;
    }
    Ok(())
}

/// The bytes of a configuration with so many handles, rounded up to a multiple of 8.
fn descriptor_size(handles: u16) -> u16
    requires { handles ≤ 16 }
    ensures { result ≡ descriptor_size handles }
{
    (64 + 4 * handles + 7) / 8 * 8
}

fn push_zeros(log: &mut Vec<u8>, count: u16) -> Result<(), AllocError>
    ensures { OnOk result (log.new.items ≡ log.old.items ++ zeros count) }
{
    log.resize(log.len() + usize::from(count), 0)
}
