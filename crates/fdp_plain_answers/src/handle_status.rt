ghost use Rattle.fdp_base.specs.Numbers.{numbers_below};
ghost use Rattle.fdp_rules.specs.LogPages.{status_descriptor, handle_status};
ghost use Rattle.fdp_rules.specs.Room.{handles_of};
ghost use Rattle.fdp_rules.specs.Target.{pid_of};
ghost use Rattle.fdp_tables.specs.State.{plain_of};
ghost use Rattle.std.specs.List.{enumerate_from};
ghost use Rattle.std.specs.Prelude.{◌≡◌, ℕ, ◌+◌, ◌*◌, ◌<◌, ◌≤◌, ◌++◌, length, flat_map, OnOk, IfOk};

use fdp_logs::{status_frame, status_head};
use fdp_tables::Standing;
use std::alloc::{AllocError, Global};

/// The placement identifier of a group and a placement handle.
fn pid_of(kept: &Standing, rg: u16, handle: u16) -> u16
    requires group { rg < kept.now.config.groups }
    requires handle { handle < 16 }
    ensures { result ≡ pid_of kept.now.config rg handle }
{
    match kept.config().group_bits() {
        0 => handle,
        1 => 32768 * rg + handle,
        2 => 16384 * rg + handle,
        3 => 8192 * rg + handle,
        _ => 4096 * rg + handle,
    }
}

/// The reclaim unit handle status of a namespace: how many descriptors; for each placement handle, for each group, one.
pub(crate) fn handle_status(
    kept: &Standing,
    alloc: Global,
    nsid: u32,
) -> Result<Vec<u8>, AllocError>
    ensures { IfOk result (λ bytes. bytes.items ≡ handle_status kept.now.config (plain_of kept.now) nsid) }
{
    let handles = kept.handles_of(nsid);
    let mut bytes = Vec::new(alloc);
    bytes.extend_from_slice(&status_head(handles.len() as u16 * kept.config().groups))?;
    push_handles(kept, &mut bytes, handles)?;
    Ok(bytes)
}

fn push_handles(kept: &Standing, bytes: &mut Vec<u8>, handles: &[u16]) -> Result<(), AllocError>
    requires few { length handles.now ≤ 16 }
    ensures { OnOk result (bytes.new.items ≡ bytes.old.items ++ flat_map (λ (x : ℕ × ℕ). flat_map (status_descriptor kept.now.config (plain_of kept.now) x.0 x.1) (numbers_below kept.now.config.groups)) (enumerate_from 0 handles.now)) }
{
    for handle in 0..handles.len() {
        let ruh = handles[handle];
        push_groups(kept, bytes, handle as u16, ruh)?;
    }
    Ok(())
}

fn push_groups(
    kept: &Standing,
    bytes: &mut Vec<u8>,
    handle: u16,
    ruh: u16,
) -> Result<(), AllocError>
    requires handle { handle < 16 }
    ensures { OnOk result (bytes.new.items ≡ bytes.old.items ++ flat_map (status_descriptor kept.now.config (plain_of kept.now) handle ruh) (numbers_below kept.now.config.groups)) }
{
    for rg in 0..kept.config().groups {
        push_descriptor(kept, bytes, handle, ruh, rg)?;
    }
    Ok(())
}

/// A placement handle in a group: its identifier; its reclaim unit handle; no time; how many blocks may still be written.
fn push_descriptor(
    kept: &Standing,
    bytes: &mut Vec<u8>,
    handle: u16,
    ruh: u16,
    rg: u16,
) -> Result<(), AllocError>
    requires group { rg < kept.now.config.groups }
    requires handle { handle < 16 }
    ensures { OnOk result (bytes.new.items ≡ bytes.old.items ++ status_descriptor kept.now.config (plain_of kept.now) handle ruh rg) }
{
    let left = u64::from(kept.reference(rg, ruh).left);
    bytes.extend_from_slice(&status_frame(pid_of(kept, rg, handle), ruh, left))?;
    Ok(())
}
