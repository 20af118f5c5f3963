ghost use Rattle.std.specs.Prelude.{◌≡◌, [], ◌∷◌, Some, true, IfOk};
ghost use Rattle.fdp_base.specs.Config.{IsValidConfig};

use fdp_base::{Class, Classes, DriveConfig, HandleList, NamespaceConfig, Sequence};
use std::alloc::{AllocError, Global};

/// One group of 12 units of 8 pages, one handle, one queue, and these namespaces. A group may store 52 blocks.
fn one_group(
    alloc: Global,
    namespaces: Sequence<NamespaceConfig>,
) -> Result<DriveConfig, AllocError>
    ensures { IfOk result (λ c. c ≡ record {
      block = 512;
      unit_pages = 8;
      groups = 1;
      units = 12;
      area_units = 4;
      queues = 1;
      blocks_per_command = 4;
      fdp = (Class.Initial ∷ []) ∷ [];
      enabled = true;
      index = 0;
      namespaces = namespaces;
      queue_depth = 64;
      collectors = 0;
      turns = 0;
    }) }
{
    let classes = Classes::from_vec(vec![in alloc; Class::Initial]?);
    Ok(DriveConfig {
        block: 512,
        unit_pages: 8,
        groups: 1,
        units: 12,
        area_units: 4,
        queues: 1,
        blocks_per_command: 4,
        fdp: Sequence::from_vec(vec![in alloc; classes]?),
        enabled: true,
        index: 0,
        namespaces,
        queue_depth: 64,
        collectors: 0,
        turns: 0,
    })
}

/// One group, one handle, one namespace that is as large as the budget of 52 blocks.
pub fn drive_s(alloc: Global) -> Result<DriveConfig, AllocError>
    ensures { IfOk result IsValidConfig }
{
    let handles = Some(HandleList::from_vec(vec![in alloc; 0]?));
    let namespace = NamespaceConfig {
        blocks: 52,
        handles,
    };
    one_group(alloc, Sequence::from_vec(vec![in alloc; namespace]?))
}

/// The same without a namespace.
pub fn empty_drive_s(alloc: Global) -> Result<DriveConfig, AllocError>
    ensures { IfOk result IsValidConfig }
{
    one_group(alloc, Sequence::new(alloc))
}
