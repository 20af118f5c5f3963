ghost use Rattle.std.specs.Prelude.{◌≡◌, [], ◌∷◌, Some, true, IfOk};
ghost use Rattle.fdp_base.specs.Config.{IsValidConfig};

use fdp_base::{Class, Classes, DriveConfig, HandleList, NamespaceConfig, Sequence};
use std::alloc::{AllocError, Global};

/// Two groups of 20 units of 8 pages, three handles, the last persistently isolated, two queues, and this namespace. A
/// group may store 80 blocks.
fn two_groups(alloc: Global, namespace: NamespaceConfig) -> Result<DriveConfig, AllocError>
    ensures { IfOk result (λ c. c ≡ record {
      block = 512;
      unit_pages = 8;
      groups = 2;
      units = 20;
      area_units = 4;
      queues = 2;
      blocks_per_command = 4;
      fdp = (Class.Initial ∷ Class.Initial ∷ Class.Persistent ∷ []) ∷ [];
      enabled = true;
      index = 0;
      namespaces = namespace ∷ [];
      queue_depth = 64;
      collectors = 0;
      turns = 0;
    }) }
{
    let classes = Classes::from_vec(vec![in alloc;
        Class::Initial,
        Class::Initial,
        Class::Persistent,
    ]?);
    Ok(DriveConfig {
        block: 512,
        unit_pages: 8,
        groups: 2,
        units: 20,
        area_units: 4,
        queues: 2,
        blocks_per_command: 4,
        fdp: Sequence::from_vec(vec![in alloc; classes]?),
        enabled: true,
        index: 0,
        namespaces: Sequence::from_vec(vec![in alloc; namespace]?),
        queue_depth: 64,
        collectors: 0,
        turns: 0,
    })
}

/// Two groups, and one namespace of 160 blocks with all three handles.
pub fn drive_t(alloc: Global) -> Result<DriveConfig, AllocError>
    ensures { IfOk result IsValidConfig }
{
    let handles = Some(HandleList::from_vec(vec![in alloc; 0, 1, 2]?));
    two_groups(
        alloc,
        NamespaceConfig {
            blocks: 160,
            handles,
        },
    )
}

/// Two groups, and one namespace of 8 blocks that has handle 2, then handle 0.
pub fn small_drive_t(alloc: Global) -> Result<DriveConfig, AllocError>
    ensures { IfOk result IsValidConfig }
{
    let handles = Some(HandleList::from_vec(vec![in alloc; 2, 0]?));
    two_groups(alloc, NamespaceConfig { blocks: 8, handles })
}
