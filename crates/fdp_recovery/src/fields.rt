//! What a checkpoint says that no drive of a configuration would save.

ghost use Rattle.std.specs.Prelude.{◌≡◌, ℕ, ◌+◌, ◌*◌, ◌^◌, ◌≤◌, ◌<◌, suc, true, not, drop, length, position, take, IfSome, if◌then◌else◌, option_map};
ghost use Rattle.fdp_base.specs.Config.{IsInRange};
ghost use Rattle.fdp_base.specs.Placement.{full_budget};
ghost use Rattle.fdp_base.specs.declared.event.Event.{Event as Told};
ghost use Rattle.fdp_rules.specs.Events.{is_host_event};
ghost use Rattle.fdp_snapshot.specs.Fixed.{IsSummary};
ghost use Rattle.fdp_image.specs.BadFields.{bad_field, bad_row, bad_space, has_any_bit, has_stray_bit, may_stand, or_else, row_at};

use fdp_base::{DriveConfig, Event};
use fdp_snapshot::{EventRing, Space, Summary};
use fdp_state::{full_budget, is_handle_list};

#[tactic(auto, unfolding(fdp_image::specs::BadFields::bad_field))]
/// The offset of the first field of a checkpoint that no drive of the configuration saves so.
pub fn bad_field(config: &DriveConfig, summary: &Summary) -> Option<u32>
    requires config { IsInRange config.now }
    requires summary { IsSummary summary.now }
    ensures value { result ≡ bad_field config.now summary.now }
    ensures bound { IfSome result (λ at. at < 5120) }
{
    if usize::from(summary.index) >= config.fdp.as_slice().len() {
        return Some(49);
    }
    let count = config.handle_count(summary.enabled, summary.index);
    bad_row(config, count, summary)
}

/// The offset of the first row that no drive saves, where there are so many handles.
#[tactic(auto, unfolding(fdp_image::specs::BadFields::bad_row))]
fn bad_row(config: &DriveConfig, count: u8, summary: &Summary) -> Option<u32>
    requires config { IsInRange config.now }
    requires count { count ≤ 16 }
    requires summary { IsSummary summary.now }
    ensures value { result ≡ bad_row config.now count summary.now }
    ensures bound { IfSome result (λ at. at < 5120) }
{
    let position = summary.totals.position;
    let room = u64::from(full_budget(config, count));
    let stray = stray_mask(&summary.masks, count);
    let other = other_mask(&summary.masks, count);
    let space = bad_space(count, position, room, summary.spaces.as_slice());
    let host = event_of(&summary.host_events, false);
    let controller = event_of(&summary.controller_events, true);
    or_else(
        row_at(112, 1, stray),
        or_else(
            row_at(112 + u32::from(count), 1, other),
            or_else(
                row_at(128, 40, space),
                or_else(row_at(832, 64, host), row_at(2880, 64, controller)),
            ),
        ),
    )
}

fn or_else(first: Option<u32>, second: Option<u32>) -> Option<u32>
    ensures value { result ≡ or_else first second }
    ensures bound { IfSome first (λ at. at < 5120) → IfSome second (λ at. at < 5120) → IfSome result (λ at. at < 5120) }
{
    match first {
        Some(at) => Some(at),
        None => second,
    }
}

/// The offset of a row of a list.
fn row_at(first: u32, size: u32, row: Option<usize>) -> Option<u32>
    requires first { first ≤ 2880 }
    requires size { size ≤ 64 }
    requires row { IfSome row (λ i. i < 64) }
    ensures value { result ≡ row_at first size row }
    ensures bound { (n : ℕ) → first + size * n < 5120 → IfSome row (λ i. i < n) → IfSome result (λ at. at < 5120) }
{
    match row {
        Some(i) => Some(first + size * i as u32),
        None => None,
    }
}

/// The first mask with a bit of no kind of event, of so many.
fn stray_mask(masks: &[u8; 16], count: u8) -> Option<usize>
    requires { count ≤ 16 }
    ensures value { result ≡ position has_stray_bit (take count masks.now) }
    ensures bound { IfSome result (λ i. i < 16) }
{
    first_stray(&masks[..usize::from(count)])
}

fn first_stray(masks: &[u8]) -> Option<usize>
    ensures value { result ≡ position has_stray_bit masks.now }
    ensures bound { IfSome result (λ i. i < length masks.now) }
{
    masks.iter().position(|mask| !(*mask < 64))
}

/// The first mask with a bit, of those behind so many.
fn other_mask(masks: &[u8; 16], count: u8) -> Option<usize>
    requires { count ≤ 16 }
    ensures value { result ≡ position has_any_bit (drop count masks.now) }
    ensures bound { IfSome result (λ i. i < 16) }
{
    first_other(&masks[usize::from(count)..])
}

fn first_other(masks: &[u8]) -> Option<usize>
    ensures value { result ≡ position has_any_bit masks.now }
    ensures bound { IfSome result (λ i. i < length masks.now) }
{
    masks.iter().position(|mask| !(*mask == 0))
}

/// The first event that is one of hosts, or that is none.
fn event_of(events: &EventRing, host: bool) -> Option<usize>
    ensures value { result ≡ position (λ (e : Told). if host then is_host_event e else not (is_host_event e)) events.now }
    ensures bound { IfSome result (λ i. i < length events.now) }
{
    let (older, newer) = events.pieces();
    behind(
        event_among(older, host),
        older.len(),
        event_among(newer, host),
    )
}

/// The first place of two pieces, from those in each: the first piece has so many.
fn behind(first: Option<usize>, count: usize, second: Option<usize>) -> Option<usize>
    requires { IfSome second (λ i. count + i < 2 ^ 64) }
    ensures { result ≡ or_else first (option_map (λ i. count + i) second) }
{
    match first {
        Some(at) => Some(at),
        None => match second {
            Some(at) => Some(count + at),
            None => None,
        },
    }
}

fn event_among(events: &[Event], host: bool) -> Option<usize>
    ensures value { result ≡ position (λ (e : Told). if host then is_host_event e else not (is_host_event e)) events.now }
    ensures bound { IfSome result (λ i. i < length events.now) }
{
    events.iter().position(|event| is_of_class(event, host))
}

fn is_of_class(event: &Event, host: bool) -> bool
    ensures { result ≡ (if host then is_host_event event.now else not (is_host_event event.now)) }
{
    is_host_event(event) == host
}

fn is_host_event(event: &Event) -> bool
    ensures { result ≡ is_host_event event.now }
{
    (event.kind as u8) < 0x80
}

/// The first place with a namespace that there may not be, of so many handles, by this position and with so much room.
#[tactic(auto, unfolding(fdp_image::specs::BadFields::bad_space))]
fn bad_space(count: u8, position: u64, room: u64, spaces: &[Option<Space>]) -> Option<usize>
    ensures value { result ≡ bad_space count position room spaces.now }
    ensures bound { IfSome result (λ i. i < length spaces.now) }
{
    match spaces.split_first() {
        Some((first, rest)) => match first {
            Some(space) => {
                if may_stand(count, position, room, space) {
                    next(bad_space(count, position, room - space.size, rest))
                } else {
                    Some(0)
                }
            }
            None => next(bad_space(count, position, room, rest)),
        },
        None => None,
    }
}

fn next(place: Option<usize>) -> Option<usize>
    requires { IfSome place (λ i. i < 2 ^ 63) }
    ensures value { result ≡ option_map suc place }
    ensures bound { (n : ℕ) → IfSome place (λ i. i < n) → IfSome result (λ i. i < n + 1) }
{
    match place {
        Some(i) => Some(i + 1),
        None => None,
    }
}

/// Whether there may be a namespace, of so many handles, by this position and with so much room.
fn may_stand(count: u8, position: u64, room: u64, space: &Space) -> bool
    ensures value { result ≡ may_stand count position room space.now }
    ensures fits { result ≡ true → space.now.size ≤ room }
{
    is_handle_list(count, space.handles.as_slice()) && space.birth <= position && space.size <= room
}
