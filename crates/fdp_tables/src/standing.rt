ghost use Rattle.std.specs.Prelude.{◌≡◌, ◌+◌, ◌<◌, ◌≤◌, ◌^◌, ◌==◌, ◌&&◌, not, length, slice_index};
ghost use Rattle.std.specs.Option.{option_copied};
ghost use Rattle.fdp_base.specs.Config.{IsValidConfig};
ghost use Rattle.fdp_base.specs.Numbers.{is_among};
ghost use Rattle.fdp_rules.specs.Effect.{lowest_free};
ghost use Rattle.fdp_rules.specs.Room.{budget, handles_in_force, handles_of, size_of, stored_where};
ghost use Rattle.fdp_tables.specs.State.{block_at, plain_of, point_kept, reference_at, reference_of, row, space_at};

use crate::state::{Kept, KeptBlock, KeptGoing, KeptReference, Space};
use fdp_base::{DriveConfig, Event};
use fdp_commands::Drive;
use std::marker::Model;

/// The tables of a plain drive, which are sound.
#[derive(Drop)]
pub struct Standing<'a> {
    pub(crate) kept: &'a Kept,
}

impl<'a> Model for Standing<'a> {
    ghost use Rattle.fdp_tables.specs.declared.state.Kept.{Kept};
    ghost use Rattle.fdp_tables.specs.Sound.{IsSound};

    ghost Value = { Kept };

    ghost view = { λ s. s.kept.now };

    ghost invariant = { λ s. IsSound s.kept.now };
}

impl<'a> Standing<'a> {
    ghost use Rattle.fdp_tables.specs.Sound.{IsSound};

    pub fn new(kept: &'a Kept) -> Standing<'a>
        requires { IsSound kept.now }
        ensures { result ≡ kept.now }
    {
        Standing { kept }
    }

    /// The tables themselves.
    pub fn tables(&self) -> &Kept
        ensures same { result.now ≡ self.now }
        ensures sound { IsSound result.now }
    {
        self.kept
    }

    pub fn config(&self) -> &DriveConfig
        ensures value { result.now ≡ self.now.config }
        ensures valid { IsValidConfig result.now }
    {
        &self.kept.config
    }

    /// The namespace with an identifier.
    pub fn space(&self, nsid: u32) -> Option<&Space>
        ensures { option_copied result ≡ space_at self.now nsid }
    {
        self.kept.space(nsid)
    }

    /// The reclaim unit handles of a namespace, by placement handle.
    pub fn handles_of(&self, nsid: u32) -> &[u16]
        ensures value { result.now ≡ handles_of (plain_of self.now) nsid }
        ensures few { length result.now ≤ 16 }
    {
        self.kept.handles_of(nsid)
    }

    /// The size of a namespace in blocks, 0 where it is not there.
    pub fn size_of(&self, nsid: u32) -> u64
        ensures { result ≡ size_of (plain_of self.now) nsid }
    {
        self.kept.size_of(nsid)
    }

    /// The namespaces by identifier.
    pub fn spaces(&self) -> &[Option<Space>]
        ensures value { result.now ≡ self.now.spaces.items }
        ensures count { length result.now ≡ 17 }
    {
        self.kept.spaces.as_slice()
    }

    /// What the handles reference, sixteen for each group.
    pub fn references(&self) -> &[KeptReference]
        ensures { result.now ≡ self.now.references.items }
    {
        self.kept.references.as_slice()
    }

    /// The moments of the media errors, the oldest first.
    pub fn media(&self) -> &[u64]
        ensures { result.now ≡ self.now.media.items }
    {
        self.kept.media.as_slice()
    }

    /// All events that were kept, the oldest first.
    pub fn events(&self) -> &[Event]
        ensures { result.now ≡ self.now.events.items }
    {
        self.kept.events.as_slice()
    }

    /// Whether a unit is out of use.
    pub fn is_lost(&self, unit: usize) -> bool
        ensures { result ≡ (plain_of self.now).is_lost unit }
    {
        self.kept.is_lost(unit)
    }

    /// How many blocks a group may store.
    pub fn budget(&self, rg: u16) -> u32
        ensures value { result ≡ budget self.now.config (plain_of self.now) rg }
        ensures bound { result < 2 ^ 25 }
    {
        self.kept.budget(rg)
    }

    /// How many blocks lie in a group, but for `count` blocks of namespace `except` from `slba` on.
    pub fn stored_outside(&self, rg: u16, except: u32, slba: u64, count: u64) -> u128
        ensures value { result ≡ stored_where (plain_of self.now) rg (λ nsid lba. not (nsid == except && is_among slba count lba)) }
        ensures bound { result ≤ 2 ^ 68 }
    {
        self.kept.stored_outside(rg, except, slba, count)
    }

    /// The handle of placement handle 0.
    pub fn first_handle(&self, nsid: u32) -> u16
        ensures { result ≡ slice_index (handles_of (plain_of self.now) nsid) 0 }
    {
        match self.handles_of(nsid).first() {
            Some(ruh) => *ruh,
            None => 0,
        }
    }

    /// The block at an address.
    pub fn block(&self, nsid: u32, lba: u64) -> Option<&KeptBlock>
        ensures { option_copied result ≡ block_at self.now nsid lba }
    {
        self.kept.block(nsid, lba)
    }

    /// What a handle references in a group.
    pub fn reference(&self, rg: u16, ruh: u16) -> KeptReference
        ensures { reference_of result ≡ reference_at self.now rg ruh }
    {
        self.kept.reference(rg, ruh)
    }

    /// The write that is going in a queue.
    pub fn going_in(&self, queue: u8) -> Option<&KeptGoing>
        ensures { option_copied result ≡ row self.now.going.items queue }
    {
        self.kept.going_in(queue)
    }

    /// How many reclaim unit handles the configuration in force has.
    pub fn handles_in_force(&self) -> u8
        ensures value { result ≡ handles_in_force self.now.config (plain_of self.now) }
        ensures bound { result ≤ 16 }
    {
        self.kept.handles_in_force()
    }

    /// The lowest identifier that no namespace has.
    pub fn lowest_free(&self) -> Option<u32>
        ensures { result ≡ lowest_free (plain_of self.now) }
    {
        self.kept.lowest_free()
    }

    /// The position of the entry that comes next.
    pub fn next_position(&self) -> u64
        ensures { result ≡ (plain_of self.now).position + 1 }
    {
        self.kept.next_position()
    }
}

impl Drive for Standing<'_> {
    ghost config = { λ k. k.config };

    ghost point = { point_kept };

    fn config(&self) -> &DriveConfig {
        &self.kept.config
    }

    fn is_enabled(&self) -> bool {
        self.kept.enabled
    }

    fn size(&self, nsid: u32) -> Option<u64> {
        match self.kept.space(nsid) {
            Some(space) => Some(space.blocks.len() as u64),
            None => None,
        }
    }

    fn handle_count(&self, nsid: u32) -> usize {
        self.kept.handles_of(nsid).len()
    }

    fn handle(&self, nsid: u32, at: u16) -> Option<u8> {
        match self.kept.handles_of(nsid).get(usize::from(at)) {
            Some(ruh) => Some(*ruh as u8),
            None => None,
        }
    }

    fn handles_in_force(&self) -> u8 {
        self.kept.handles_in_force()
    }

    fn budget(&self, rg: u16) -> u32 {
        self.kept.budget(rg)
    }

    fn stored(&self, rg: u16) -> u128 {
        self.kept.stored(rg)
    }

    fn stored_without(&self, rg: u16, nsid: u32, slba: u64, count: u32) -> u128 {
        self.kept.stored_outside(rg, nsid, slba, u64::from(count))
    }
}
