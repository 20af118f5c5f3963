ghost use Rattle.std.specs.Prelude.{◌≡◌, ◌+◌, ◌^◌, ◌<◌, ◌≤◌, ◌∷◌, flat_map, length};
ghost use Rattle.fdp_base.specs.Codes.{class_code};
ghost use Rattle.fdp_base.specs.Config.{IsInRange};
ghost use Rattle.fdp_pieces.specs.Parts.{PutsPiece};
ghost use Rattle.fdp_rules.specs.LogPages.{configurations_log, descriptor, descriptor_size, zeros};

use fdp_base::{Class, DriveConfig};
use fdp_logs::{class_frame, configurations_head, descriptor_head};
use fdp_pieces::{is_outside, put_piece};

/// How many bytes log 20h has.
pub fn configurations_length(config: &DriveConfig) -> u32
    requires { IsInRange config.now }
    ensures { result ≡ length (configurations_log config.now) }
{
    16 + descriptors_length(config)
}

fn descriptors_length(config: &DriveConfig) -> u32
    requires { IsInRange config.now }
    ensures value { result ≡ length (flat_map (descriptor config.now) config.now.fdp) }
    ensures bound { result ≤ 512 }
{
    let mut bytes = 0;
    for classes in config.fdp.as_slice() {
        bytes += u32::from(descriptor_size(classes.as_slice().len() as u16));
    }
    bytes
}

/// Puts log 20h: how many configurations there are, and each.
pub fn put_configurations(into: &mut [u8], offset: u64, config: &DriveConfig)
    requires { IsInRange config.now }
    ensures { PutsPiece offset 0 (configurations_log config.now) into.old into.new }
{
    let count = config.fdp.as_slice().len() as u16;
    let head = configurations_head(count - 1, configurations_length(config));
    put_piece(into, offset, 0, &head);
    put_descriptors(into, offset, config);
}

fn put_descriptors(into: &mut [u8], offset: u64, config: &DriveConfig)
    requires { IsInRange config.now }
    ensures { PutsPiece offset 16 (flat_map (descriptor config.now) config.now.fdp) into.old into.new }
{
    let mut at = 16;
    for classes in config.fdp.as_slice() {
        put_descriptor(into, offset, at, config, classes.as_slice());
        at += u64::from(descriptor_size(classes.as_slice().len() as u16));
    }
}

/// Puts a configuration with these classes of handles, unless it lies outside.
fn put_descriptor(into: &mut [u8], offset: u64, at: u64, config: &DriveConfig, classes: &[Class])
    requires ranges { IsInRange config.now }
    requires few { length classes.now ≤ 16 }
    requires place { at < 2 ^ 32 }
    ensures { PutsPiece offset at (descriptor config.now classes.now) into.old into.new }
{
    let handles = classes.len() as u16;
    let bytes = usize::from(descriptor_size(handles));
    if is_outside(into.len(), offset, at, bytes) {
        return;
    }
    put_piece(into, offset, at, &descriptor_head(config, handles));
    // Its padding is there already: zeros.
    put_classes(into, offset, at + 64, classes);
}

fn put_classes(into: &mut [u8], offset: u64, start: u64, classes: &[Class])
    requires few { length classes.now ≤ 16 }
    requires place { start < 2 ^ 33 }
    ensures { PutsPiece offset start (flat_map (λ class. class_code class ∷ zeros 3) classes.now) into.old into.new }
{
    for index in 0..classes.len() {
        put_piece(
            into,
            offset,
            start + 4 * index as u64,
            &class_frame(classes[index]),
        );
    }
}

/// The bytes of a configuration with so many handles, rounded up to a multiple of 8.
fn descriptor_size(handles: u16) -> u16
    requires { handles ≤ 16 }
    ensures value { result ≡ descriptor_size handles }
    ensures bound { result ≤ 128 }
{
    (64 + 4 * handles + 7) / 8 * 8
}
