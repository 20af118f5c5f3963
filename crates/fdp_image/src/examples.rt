//! Worked examples of what an image says, each an equation that is computed.

ghost use Rattle.std.specs.Prelude.{◌≡◌, Some, None, false, [], ◌∷◌, option_map, replicate, slice_set};
ghost use Rattle.std.specs.Option.{option_and_then};
ghost use Rattle.fdp_base.specs.declared.event.EventKind.TheVariants.{MediaReallocated};
ghost use Rattle.fdp_flash.specs.declared.cell.Cell.TheVariants.{Blank, Torn};
ghost use Rattle.fdp_records.specs.declared.change.Change.TheVariants as changes;
ghost use Rattle.fdp_records.specs.declared.spare.SystemKind.TheVariants.{Journal};
ghost use Rattle.fdp_records.specs.Reading.{decoded};
ghost use Rattle.fdp_rules.specs.Events.{nsid_and_location_valid};
ghost use Rattle.fdp_rules.specs.PlainState.{PageName.found};
ghost use Rattle.fdp_image.specs.Examples.{cells, config, moved_cells, moved_unseen, system_page, torn_journal, write_record, write_totals, zeros};
ghost use Rattle.fdp_image.specs.Reading.{Reading};
ghost use Rattle.fdp_image.specs.Reads.{fresh_reading, reads_as};
ghost use Rattle.fdp_image.specs.Valid.{block_read};

/// The record of a write is read as the change and its totals; with one byte more that is not zero it is none.
pub fn records_are_read()
    ensures told { decoded write_record ≡ Some (changes.Write 1 2 0 false (0 ∷ 1 ∷ []), write_totals) }
    ensures reserved { decoded (slice_set write_record 511 1) ≡ None }
{}

/// An image with one record reads as its checkpoint with that change: the totals, the page of a block, a block without a page,
/// the namespace, and the bytes of a block.
pub fn images_are_read()
    ensures totals { option_map (λ (r : Reading). r.totals) (reads_as config cells) ≡ Some write_totals }
    ensures page { option_and_then (λ (r : Reading). r.pages 1 3) (reads_as config cells) ≡ Some 1 }
    ensures no_page { option_and_then (λ (r : Reading). r.pages 1 1) (reads_as config cells) ≡ None }
    ensures namespace { option_and_then (λ (r : Reading). r.namespaces 1) (reads_as config cells) ≡ Some (record { size = 4; handles = 0 ∷ []; given = false; birth = 0 }) }
    ensures block { option_and_then (λ (r : Reading). block_read config cells r 1 3) (reads_as config cells) ≡ Some (record { bytes = replicate 512 8; rg = 0; ruh = 0; page = found (record { unit = 0; page = 1 }) }) }
{}

/// A journal page that is torn is not applied, nor is one behind it. One that is whole and tells no change makes the image
/// unreadable; so does a checkpoint page that is torn, where no other area is sealed and the data pages are not blank.
pub fn bad_pages_are_left()
    ensures torn { option_map (λ (r : Reading). r.totals.position) (reads_as config torn_journal) ≡ Some 0 }
    ensures bad { option_map (λ (r : Reading). r.totals.position) (reads_as config (slice_set cells 48 (system_page Journal 0 (zeros 512)))) ≡ None }
    ensures checkpoint { option_map (λ (r : Reading). r.totals.position) (reads_as config (slice_set cells 44 Torn)) ≡ None }
{}

/// A blank flash reads as the fresh drive.
pub fn blank_flash_is_fresh()
    ensures { reads_as config (replicate 92 Blank) ≡ Some (fresh_reading config) }
{}

/// A move puts each block on its new page, and gives its event where that kind is kept for the handle.
pub fn moves_are_read()
    ensures page { option_and_then (λ (r : Reading). r.pages 1 3) (reads_as config moved_cells) ≡ Some 5 }
    ensures event { option_map (λ (r : Reading). r.controller_events) (reads_as config moved_cells) ≡ Some (record { kind = MediaReallocated; flags = nsid_and_location_valid; pid = 0; position = 7; nsid = 1; moved = 2; lba = 2; rg = 0; ruh = 0 } ∷ []) }
    ensures unseen { option_map (λ (r : Reading). r.controller_events) (reads_as config moved_unseen) ≡ Some [] }
{}
