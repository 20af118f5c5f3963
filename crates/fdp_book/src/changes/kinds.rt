//! The kinds of event of a setting, as a mask.

ghost use Rattle.std.specs.Prelude.{◌≡◌, ◌<◌, ◌==◌};
ghost use Rattle.std.specs.List.{list_any};
ghost use Rattle.fdp_base.specs.declared.event.EventKind.{EventKind as Kind};
ghost use Rattle.fdp_base.specs.EventCodes.{kind_code};
ghost use Rattle.fdp_image.specs.CheckpointRows.{has_kind};

/// The kinds of these types, as bits.
pub fn mask_of(types: &[u8]) -> u8
    ensures kinds { (kind : Kind) → has_kind result kind ≡ list_any (λ code. code == kind_code kind) types.now }
    ensures low { result < 64 }
{
    match types.split_first() {
        Some((code, rest)) => mask_of(rest) | bit_of(*code),
        None => 0,
    }
}

/// The bit of a type, 0 where it is none.
fn bit_of(code: u8) -> u8
    ensures kinds { (kind : Kind) → has_kind result kind ≡ (code == kind_code kind) }
    ensures low { result < 64 }
{
    match code {
        0x00 => 1,
        0x01 => 2,
        0x02 => 4,
        0x03 => 8,
        0x80 => 16,
        0x81 => 32,
        _ => 0,
    }
}
