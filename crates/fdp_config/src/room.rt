//! Room for the namespaces, and for a checkpoint.
ghost use Rattle.std.specs.Prelude.{◌≡◌, ◌≤◌, length, sum_by};
ghost use Rattle.fdp_base.specs.Config.{IsInRange};
ghost use Rattle.fdp_config.specs.Reader.First.{room_fault};

use crate::fault::ConfigFault;
use fdp_base::{DriveConfig, MOST_NAMESPACES, NamespaceConfig};

/// The fault where the namespaces have more blocks than the budgets, or a system area has too few pages.
pub fn room_fault(config: &DriveConfig) -> Option<ConfigFault>
    requires { IsInRange config.now }
    ensures { result ≡ room_fault config.now }
{
    let handles = config.handle_count(config.enabled, config.index);
    let needed = blocks_of(config.namespaces.as_slice());
    let budget = u128::from(config.groups) * u128::from(config.budget(handles, 0));
    if budget < needed {
        return Some(ConfigFault::NoRoom { needed, budget });
    }
    let needed = config.checkpoint_pages() + 17;
    let pages = config.geometry().area_pages();
    if pages < needed {
        return Some(ConfigFault::NoRoom {
            needed: u128::from(needed),
            budget: u128::from(pages),
        });
    }
    None
}

/// The blocks of some namespaces.
fn blocks_of(namespaces: &[NamespaceConfig]) -> u128
    requires { length namespaces.now ≤ MOST_NAMESPACES }
    ensures { result ≡ sum_by (λ n. n.blocks) namespaces.now }
{
    let mut blocks = 0u128;
    for namespace in namespaces {
        blocks += u128::from(namespace.blocks);
    }
    blocks
}
