//! Which kinds of event are kept for each handle.

ghost use Rattle.std.specs.Prelude.{◌≡◌, ℕ, ◌<◌, ◌==◌, ◌&&◌, Bool, false, if◌then◌else◌};
ghost use Rattle.fdp_base.specs.declared.event.EventKind.{EventKind as Kind};
ghost use Rattle.fdp_image.specs.BadFields.{AreKnownMasks};
ghost use Rattle.fdp_image.specs.Checkpoint.{reports_in};
ghost use Rattle.fdp_image.specs.CheckpointRows.{has_kind};
ghost use Rattle.fdp_events.specs.Kinds.{kind_bit};

use fdp_base::EventKind;

/// The bit of a kind in a mask.
fn kind_bit(kind: EventKind) -> u8
    ensures value { result ≡ kind_bit kind }
    ensures bound { result < 6 }
{
    match kind {
        EventKind::NotFullyWritten => 0,
        EventKind::TimeLimitExceeded => 1,
        EventKind::HandlesModified => 2,
        EventKind::InvalidPlacementIdentifier => 3,
        EventKind::MediaReallocated => 4,
        EventKind::ImplicitlyModified => 5,
    }
}

/// Whether a mask has the bit of a kind.
fn has_kind(mask: u8, kind: EventKind) -> bool
    ensures { result ≡ has_kind mask kind }
{
    mask >> kind_bit(kind) & 1 == 1
}

/// Whether events of a kind are kept for a handle.
pub fn reports(masks: &[u8; 16], ruh: u8, kind: EventKind) -> bool
    ensures { result ≡ reports_in masks.now ruh kind }
{
    ruh < 16 && has_kind(masks[usize::from(ruh)], kind)
}

/// A mask with the kinds of another set, or without them.
#[tactic(auto, using(crate::proofs::MaskBits::kinds_with, crate::proofs::MaskBits::kinds_without, crate::proofs::MaskBits::known_with, crate::proofs::MaskBits::known_without))]
fn with_kinds(old: u8, kinds: u8, on: bool) -> u8
    ensures kinds { (kind : Kind) → has_kind result kind ≡ (if has_kind kinds kind then on else has_kind old kind) }
    ensures known { old < 64 → kinds < 64 → result < 64 }
{
    if on { old | kinds } else { old & !kinds }
}

/// The kinds of a mask are kept for a handle, or no longer.
pub fn set_reports(masks: &mut [u8; 16], ruh: u8, on: bool, kinds: u8)
    requires { ruh < 16 }
    ensures kinds { (k : ℕ) (kind : Kind) → reports_in masks.new k kind ≡ (if k == ruh && has_kind kinds kind then on else reports_in masks.old k kind) }
    ensures known { (count : ℕ) → AreKnownMasks count masks.old → ruh < count → kinds < 64 → AreKnownMasks count masks.new }
{
    let at = ruh as usize;
    masks[at] = with_kinds(masks[at], kinds, on);
}

/// No kind is kept for a handle.
#[tactic(auto, using(crate::proofs::MaskBits::reports_none))]
pub fn no_reports() -> [u8; 16]
    ensures none { (k : ℕ) (kind : Kind) → reports_in result k kind ≡ false }
    ensures known { (count : ℕ) → AreKnownMasks count result }
{
    [0; 16]
}
