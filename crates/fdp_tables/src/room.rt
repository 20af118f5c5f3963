ghost use Rattle.std.specs.Prelude.{◌≡◌, ℕ, ◌+◌, ◌*◌, ◌^◌, ◌<◌, ◌≤◌, Bool, true, not, ◌&&◌, ◌==◌, length, sum_by, count_by};
ghost use Rattle.fdp_base.specs.Numbers.{count_below, is_among, numbers_below};
ghost use Rattle.fdp_rules.specs.Effect.{lowest_free};
ghost use Rattle.fdp_rules.specs.Room.{size_of, handles_of, handles_in_force, lost_in, budget, lies_in, stored_where, stored, namespace_ids};
ghost use Rattle.fdp_tables.specs.Sound.{IsSound};
ghost use Rattle.fdp_tables.specs.State.{block_of, block_at, plain_of};

use crate::state::Kept;
use fdp_commands::NAMESPACE_IDS;

impl Kept {
    /// How many units of a group are out of use; in a worn group all count so.
    pub fn lost_in(&self, rg: u16) -> u32
        requires { IsSound self.now }
        ensures { result ≡ lost_in self.now.config (plain_of self.now) rg }
    {
        if self.is_worn(rg) {
            self.config.units
        } else {
            self.count_lost(rg)
        }
    }

    fn count_lost(&self, rg: u16) -> u32
        ensures { result ≡ count_below self.now.config.units (λ i. (plain_of self.now).is_lost (rg * self.now.config.units + i)) }
    {
        let mut lost = 0;
        for i in 0..self.config.units {
            let unit = usize::from(rg) * self.config.units as usize + i as usize;
            lost += u32::from(self.is_lost(unit));
        }
        lost
    }

    /// How many blocks a group may store.
    pub fn budget(&self, rg: u16) -> u32
        requires { IsSound self.now }
        ensures value { result ≡ budget self.now.config (plain_of self.now) rg }
        ensures bound { result < 2 ^ 25 }
    {
        self.config
            .budget(self.handles_in_force(), self.lost_in(rg))
    }

    /// How many blocks of a namespace lie in a group, but for `count` blocks of namespace `except` from `slba` on. It
    /// looks at these alone.
    fn stored_in(&self, nsid: u32, rg: u16, except: u32, slba: u64, count: u64) -> u64
        ensures { result ≡ count_below (size_of (plain_of self.now) nsid) (λ lba. lies_in rg ((plain_of self.now).blocks nsid lba) && not (nsid == except && is_among slba count lba)) }
    {
        match self.space(nsid) {
            Some(space) => {
                let all = space.blocks.count_in(rg);
                if nsid == except {
                    all - space.blocks.count_among(rg, slba, count)
                } else {
                    all
                }
            }
            None => 0,
        }
    }

    /// How many blocks lie in a group, but for `count` blocks of namespace `except` from `slba` on.
    pub fn stored_outside(&self, rg: u16, except: u32, slba: u64, count: u64) -> u128
        ensures value { result ≡ stored_where (plain_of self.now) rg (λ nsid lba. not (nsid == except && is_among slba count lba)) }
        ensures bound { result ≤ 2 ^ 68 }
    {
        let mut stored = 0;
        for nsid in &NAMESPACE_IDS {
            stored += u128::from(self.stored_in(*nsid, rg, except, slba, count));
        }
        stored
    }

    /// How many blocks a group stores.
    pub fn stored(&self, rg: u16) -> u128
        ensures value { result ≡ stored (plain_of self.now) rg }
        ensures bound { result ≤ 2 ^ 68 }
    {
        self.stored_outside(rg, 0, 0, 0)
    }

    /// The lowest identifier that no namespace has.
    pub fn lowest_free(&self) -> Option<u32>
        ensures { result ≡ lowest_free (plain_of self.now) }
    {
        for nsid in &NAMESPACE_IDS {
            if self.is_absent(*nsid) {
                return Some(*nsid);
            }
        }
        None
    }
}

/// Whether an address lies among `count` from `slba` on.
pub fn is_among(slba: u64, count: u64, lba: u64) -> bool
    ensures { result ≡ is_among slba count lba }
{
    slba <= lba && lba - slba < count
}
