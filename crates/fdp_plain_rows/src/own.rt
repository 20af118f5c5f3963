//! Entries of the drive's own.
use crate::words::Words;
use fdp_base::{
    Aside, BlockName, BlockNames, Copied, Entry, Erased, Moved, Placed, Retired, Shut, Spot, Worn,
};
use std::alloc::{AllocError, Global};

/// The entry that words say.
pub fn own_entry(alloc: Global, words: &mut Words) -> Result<Entry, AllocError> {
    match words.word() {
        "moved" => moved(alloc, words),
        name => Ok(small_entry(name, words)),
    }
}

/// An entry without a list.
fn small_entry(name: &str, words: &mut Words) -> Entry {
    match name {
        "placed" => placed(words),
        "copied" => copied(words),
        "shut" => shut(words),
        "erased" => erased(words),
        "retired" => retired(words),
        "aside" => aside(words),
        "worn" => worn(words),
        "reopened" => Entry::Reopened,
        _ => {
            words.refuse();
            Entry::Reopened
        }
    }
}

fn placed(words: &mut Words) -> Entry {
    Entry::Placed(Placed {
        ticket: words.number(),
        index: words.number32(),
        unit: words.number32(),
        page: words.number32(),
    })
}

fn copied(words: &mut Words) -> Entry {
    Entry::Copied(Copied {
        from: spot(words),
        to: spot(words),
    })
}

fn spot(words: &mut Words) -> Spot {
    let (unit, page) = words.halves('.');
    Spot {
        unit: words.number_in(unit, 0xffff_ffff) as u32,
        page: words.number_in(page, 0xffff_ffff) as u32,
    }
}

fn shut(words: &mut Words) -> Entry {
    Entry::Shut(Shut {
        rg: words.number16(),
        ruh: words.number8(),
    })
}

fn erased(words: &mut Words) -> Entry {
    Entry::Erased(Erased {
        unit: words.number32(),
    })
}

fn retired(words: &mut Words) -> Entry {
    Entry::Retired(Retired {
        unit: words.number32(),
    })
}

fn aside(words: &mut Words) -> Entry {
    Entry::Aside(Aside {
        unit: words.number32(),
    })
}

fn worn(words: &mut Words) -> Entry {
    Entry::Worn(Worn {
        rg: words.number16(),
    })
}

fn moved(alloc: Global, words: &mut Words) -> Result<Entry, AllocError> {
    let rg = words.number16();
    let blocks = BlockNames::from_vec(names(alloc, words)?);
    Ok(Entry::Moved(Moved { rg, blocks }))
}

fn names(alloc: Global, words: &mut Words) -> Result<Vec<BlockName>, AllocError> {
    let mut names = Vec::new(alloc);
    for _ in 0..words.most() {
        if words.has_more() {
            names.push(name(words))?;
        }
    }
    Ok(names)
}

fn name(words: &mut Words) -> BlockName {
    let (nsid, lba) = words.halves('.');
    BlockName {
        nsid: words.number_in(nsid, 0xffff_ffff) as u32,
        lba: words.number_in(lba, u64::MAX),
    }
}
