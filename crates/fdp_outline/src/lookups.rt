//! What is asked of the namespaces of an outline.

ghost use Rattle.std.specs.Prelude.{◌≡◌, ℕ, ◌≤◌, IfSome, is_none, length, option_map};
ghost use Rattle.std.specs.Option.{option_copied};
ghost use Rattle.fdp_base.specs.Config.{IsInRange};
ghost use Rattle.fdp_base.specs.Geometry.{IsWithin};
ghost use Rattle.fdp_image.specs.Checkpoint.{in_place};
ghost use Rattle.fdp_outline.specs.Handles.{handles_at, named_in, named_target, namespace_at};
ghost use Rattle.fdp_rules.specs.Effect.{lowest_free};
ghost use Rattle.fdp_rules.specs.PlainState.{PlainState};

use crate::named::{handles_at, named_by};
use crate::outline::Outline;
use crate::spaces::space_at;
use fdp_base::DriveConfig;
use fdp_snapshot::Space;

impl Outline {
    /// The size of a namespace in blocks, if it is there.
    pub fn size(&self, nsid: u32) -> Option<u64>
        ensures { result ≡ option_map (λ x. x.size) (namespace_at self.now nsid) }
    {
        match self.space(nsid) {
            Some(space) => Some(space.size),
            None => None,
        }
    }

    /// The position at which a namespace was created, if it is there.
    pub fn birth(&self, nsid: u32) -> Option<u64>
        ensures { result ≡ option_map (λ x. x.birth) (namespace_at self.now nsid) }
    {
        match self.space(nsid) {
            Some(space) => Some(space.birth),
            None => None,
        }
    }

    /// The reclaim unit handles of a namespace, by placement handle, at most sixteen; none where it is not there.
    pub fn handles(&self, nsid: u32) -> &[u8]
        ensures value { result.now ≡ handles_at self.now nsid }
        ensures few { length result.now ≤ 16 }
    {
        handles_at(self.summary(), nsid)
    }

    /// The group and the handle that a placement identifier names for a namespace, if there are such.
    pub fn named_by(&self, config: &DriveConfig, nsid: u32, pid: u16) -> Option<(u16, u8)>
        requires { IsInRange config.now }
        ensures { option_map named_target result ≡ named_in config.now (handles_at self.now nsid) pid }
    {
        named_by(config, self.summary(), nsid, pid)
    }

    /// The lowest identifier that no namespace has, if there is one. It takes a step for each of the sixteen.
    pub fn lowest_free(&self) -> Option<u32>
        ensures value { (s : PlainState) → ((nsid : ℕ) → s.namespaces nsid ≡ namespace_at self.now nsid) → result ≡ lowest_free s }
        ensures within { IfSome result (IsWithin 1 16) }
    {
        for nsid in 1..17 {
            if self.is_free(nsid) {
                return Some(nsid);
            }
        }
        None
    }

    /// Whether no namespace has an identifier.
    fn is_free(&self, nsid: u32) -> bool
        ensures { result ≡ is_none (namespace_at self.now nsid) }
    {
        self.space(nsid).is_none()
    }

    /// The namespace with an identifier, if it is there.
    fn space(&self, nsid: u32) -> Option<&Space>
        ensures { option_copied result ≡ in_place self.now.spaces nsid }
    {
        space_at(self.summary().spaces.as_slice(), nsid)
    }
}
