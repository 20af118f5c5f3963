ghost use Rattle.std.specs.Prelude.{◌≡◌, ℕ, ◌+◌, ◌*◌, ◌^◌, ◌<◌, ◌≤◌, length, slice_get, slice_index, option_and_then};
ghost use Rattle.std.specs.Option.{option_copied, option_flatten};
ghost use Rattle.fdp_rules.specs.Effect.{is_partly_written, no_reference};
ghost use Rattle.fdp_rules.specs.Refusal.{is_absent};
ghost use Rattle.fdp_rules.specs.Sites.{group_of};
ghost use Rattle.fdp_rules.specs.Room.{size_of, handles_of, handles_in_force, lost_in, budget};
ghost use Rattle.fdp_tables.specs.Sound.{IsSound};
ghost use Rattle.fdp_tables.specs.State.{row, space_at, block_at, reference_at, reference_of, going_of, plain_of};

use crate::state::{Kept, KeptBlock, KeptGoing, KeptReference, Space};

impl Kept {
    /// The namespace with an identifier.
    pub fn space(&self, nsid: u32) -> Option<&Space>
        ensures { option_copied result ≡ space_at self.now nsid }
    {
        match self.spaces.as_slice().get(nsid as usize) {
            Some(Some(space)) => Some(space),
            Some(None) => None,
            None => None,
        }
    }

    pub fn is_absent(&self, nsid: u32) -> bool
        ensures { result ≡ is_absent (plain_of self.now) nsid }
    {
        self.space(nsid).is_none()
    }

    /// The size of a namespace in blocks, 0 where it is not there.
    pub fn size_of(&self, nsid: u32) -> u64
        ensures { result ≡ size_of (plain_of self.now) nsid }
    {
        match self.space(nsid) {
            Some(space) => space.blocks.len() as u64,
            None => 0,
        }
    }

    /// The reclaim unit handles of a namespace, by placement handle.
    pub fn handles_of(&self, nsid: u32) -> &[u16]
        ensures { result.now ≡ handles_of (plain_of self.now) nsid }
    {
        match self.space(nsid) {
            Some(space) => space.handles.as_slice(),
            None => &[],
        }
    }

    /// The block at an address.
    pub fn block(&self, nsid: u32, lba: u64) -> Option<&KeptBlock>
        ensures { option_copied result ≡ block_at self.now nsid lba }
    {
        match self.space(nsid) {
            Some(space) => space.blocks.get(lba),
            None => None,
        }
    }

    /// What a handle references in a group.
    pub fn reference(&self, rg: u16, ruh: u16) -> KeptReference
        ensures { reference_of result ≡ reference_at self.now rg ruh }
    {
        let none = KeptReference {
            unit: None,
            left: self.config.unit_pages,
        };
        if ruh < 16 {
            let place = 16 * usize::from(rg) + usize::from(ruh);
            match self.references.as_slice().get(place) {
                Some(reference) => *reference,
                None => none,
            }
        } else {
            none
        }
    }

    /// The write that is going in a queue.
    pub fn going_in(&self, queue: u8) -> Option<&KeptGoing>
        ensures { option_copied result ≡ row self.now.going.items queue }
    {
        match self.going.as_slice().get(usize::from(queue)) {
            Some(Some(going)) => Some(going),
            Some(None) => None,
            None => None,
        }
    }

    /// How many reclaim unit handles the configuration in force has.
    pub fn handles_in_force(&self) -> u8
        requires { IsSound self.now }
        ensures value { result ≡ handles_in_force self.now.config (plain_of self.now) }
        ensures bound { result ≤ 16 }
    {
        self.config.handle_count(self.enabled, self.index)
    }

    /// Whether a unit is out of use.
    pub fn is_lost(&self, unit: usize) -> bool
        ensures { result ≡ (plain_of self.now).is_lost unit }
    {
        match self.lost.as_slice().get(unit) {
            Some(lost) => *lost,
            None => false,
        }
    }

    /// Whether relocation found no free unit in a group.
    pub fn is_worn(&self, rg: u16) -> bool
        ensures { result ≡ (plain_of self.now).is_worn rg }
    {
        match self.worn.as_slice().get(usize::from(rg)) {
            Some(worn) => *worn,
            None => false,
        }
    }

    /// The position of the entry that comes next.
    pub fn next_position(&self) -> u64
        ensures { result ≡ (plain_of self.now).position + 1 }
    {
        self.entries.len() as u64 + 1
    }

    /// The group in which a unit lies.
    pub fn group_of(&self, unit: u32) -> u32
        requires { 0 < self.now.config.units }
        ensures { result ≡ group_of self.now.config unit }
    {
        unit / self.config.units
    }

    /// A handle without a unit.
    pub fn no_reference(&self) -> KeptReference
        ensures { reference_of result ≡ no_reference self.now.config }
    {
        KeptReference {
            unit: None,
            left: self.config.unit_pages,
        }
    }

    /// Whether some of a unit is written, and not all.
    pub fn is_partly_written(&self, reference: &KeptReference) -> bool
        ensures { result ≡ is_partly_written self.now.config (reference_of reference.now) }
    {
        0 < reference.left && reference.left < self.config.unit_pages
    }
}
