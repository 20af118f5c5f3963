ghost use Rattle.std.specs.Prelude.{◌≡◌, ◌+◌, ◌*◌, ◌-◌, ◌<◌, ◌≤◌, ◌^◌, [], ◌∷◌, ◌++◌, false, true, IsTrue, length, vec_capacity, vec_len, IfOk, OnOk, OnErr};
ghost use Rattle.fdp_base.specs.declared.entry.Entry.TheVariants as entries;
ghost use Rattle.fdp_book.specs.Logged.{AreLists, IsLogged};
ghost use Rattle.fdp_base.specs.declared.limits.TheConstants.{MOST_STEPS};

use fdp_base::{BlockName, Entry};
use std::alloc::{AllocError, Global};
use std::marker::Model;

/// The most entries that a step adds.
pub const MOST_STEP_ENTRIES: u32 = 300;

/// The history, with the room for the entries of so many steps, and for each a list of the blocks that it moves.
#[derive(Drop)]
pub struct Log {
    entries: Vec<Entry>,
    /// The position before the first of them.
    before: u64,
    spare: u32,
    spent: u32,
    /// How many entries the step under way may still add.
    room: u32,
    /// Whether one of them may be that of a move.
    may_move: bool,
    /// Empty lists, each with room for the blocks of a move.
    lists: Vec<Vec<BlockName>>,
    /// The most blocks of a move.
    names: u32,
    alloc: Global,
}

impl Model for Log {
    ghost use Rattle.fdp_book.specs.Logged.{HasLists, HasRoom, Logged};

    ghost Value = { Logged };

    ghost view = { λ log. record { entries = log.entries.items; before = log.before; spare = log.spare; spent = log.spent; room = log.room; may_move = log.may_move; names = log.names } };

    ghost invariant = { λ log. HasRoom log.entries log.before log.spare log.spent log.room × HasLists log.lists.items log.spare log.may_move log.names };
}

impl Log {
    /// A log without entries, which goes on from a position, and in which a move has at most so many blocks.
    pub fn new(alloc: Global, before: u64, names: u32) -> Log
        requires { before ≤ 2 ^ 62 }
        ensures { result ≡ record { entries = []; before = before; spare = 0; spent = 0; room = 0; may_move = false; names = names } }
    {
        Log {
            entries: Vec::new(alloc),
            before,
            spare: 0,
            spent: 0,
            room: 0,
            may_move: false,
            lists: Vec::new(alloc),
            names,
            alloc,
        }
    }

    /// A log that goes on from a position, whose one entry tells that an image was opened.
    pub fn reopened(alloc: Global, before: u64, names: u32) -> Result<Log, AllocError>
        requires { before ≤ 2 ^ 62 }
        ensures { IfOk result (λ log. log ≡ record { entries = entries.Reopened ∷ []; before = before; spare = 0; spent = 0; room = 0; may_move = false; names = names }) }
    {
        let mut entries = Vec::new(alloc);
        entries.push(Entry::Reopened)?;
        Ok(Log {
            entries,
            before,
            spare: 0,
            spent: 0,
            room: 0,
            may_move: false,
            lists: Vec::new(alloc),
            names,
            alloc,
        })
    }

    pub fn entries(&self) -> &[Entry]
        ensures entries { result.now ≡ self.now.entries }
        ensures few { length result.now ≤ MOST_STEP_ENTRIES * self.now.spent + 1 }
    {
        let _ = &self.spent; // proof
        self.entries.as_slice()
    }

    /// The position of the first entry.
    pub fn first(&self) -> u64
        ensures { result ≡ self.now.before + 1 }
    {
        self.before + 1
    }

    /// The position of the last entry.
    pub fn position(&self) -> u64
        ensures position { result ≡ self.now.before + length self.now.entries }
        ensures small { result < 2 ^ 63 }
        ensures few { length self.now.entries ≤ 2 ^ 39 }
    {
        self.before + self.entries.len() as u64
    }

    pub fn spare(&self) -> u32
        ensures { result ≡ self.now.spare }
    {
        self.spare
    }

    pub fn spent(&self) -> u32
        ensures spent { result ≡ self.now.spent }
        ensures bound { self.now.spent + self.now.spare ≤ MOST_STEPS }
    {
        self.spent
    }

    /// How many entries the step under way may still add.
    pub fn room(&self) -> u32
        ensures { result ≡ self.now.room }
    {
        self.room
    }

    /// Makes room for so many steps.
    pub fn reserve(&mut self, steps: u32) -> Result<(), AllocError>
        requires { self.old.spent + steps ≤ MOST_STEPS }
        ensures ok { OnOk result (steps ≤ self.new.spare) }
        ensures kept { self.new ≡ record self.old { spare = self.new.spare } }
        ensures err { OnErr result (self.new ≡ self.old) }
        ensures memory { OnErr result (self.old.spare < steps) }
    {
        if steps <= self.spare {
            return Ok(());
        }
        let entries = self.room as usize + MOST_STEP_ENTRIES as usize * steps as usize;
        self.entries.reserve(entries)?;
        add_lists(&mut self.lists, self.alloc, steps as usize + 1, self.names)?;
        self.spare = steps;
        Ok(())
    }

    /// A step begins.
    pub fn begin(&mut self)
        requires { 0 < self.old.spare }
        ensures { self.new ≡ record self.old { spare = self.old.spare - 1; spent = self.old.spent + 1; room = MOST_STEP_ENTRIES; may_move = true } }
    {
        self.spare -= 1;
        self.spent += 1;
        self.room = MOST_STEP_ENTRIES;
        self.may_move = true;
    }

    /// The step under way added nothing: it is as if it had not begun.
    pub fn cancel(&mut self)
        requires room { self.old.room ≡ MOST_STEP_ENTRIES }
        requires may_move { IsTrue self.old.may_move }
        ensures { self.new ≡ record self.old { spare = self.old.spare + 1; spent = self.old.spent - 1; room = 0; may_move = false } }
    {
        self.spare += 1;
        self.spent -= 1;
        self.room = 0;
        self.may_move = false;
    }

    /// The step under way adds an entry.
    pub fn push(&mut self, entry: Entry)
        requires { 0 < self.old.room }
        ensures { IsLogged self.old self.new (entry ∷ []) }
    {
        self.entries.push_reserved(entry);
        self.room -= 1;
    }

    /// An empty list for the blocks of the move of the step under way.
    pub fn take_list(&mut self) -> Vec<BlockName>
        requires { IsTrue self.old.may_move }
        ensures empty { result.items ≡ [] }
        ensures room { self.old.names ≤ vec_capacity result }
        ensures kept { self.new ≡ record self.old { may_move = false } }
    {
        self.may_move = false;
        self.lists.pop().unwrap()
    }

    pub fn into_entries(self) -> Vec<Entry>
        ensures { result.items ≡ self.entries }
    {
        let Log {
            entries,
            before: _,
            spare: _,
            spent: _,
            room: _,
            may_move: _,
            lists: _,
            names: _,
            alloc: _,
        } = self;
        entries
    }
}

/// Makes empty lists, each with room for so many names, until there are so many.
fn add_lists(
    lists: &mut Vec<Vec<BlockName>>,
    alloc: Global,
    count: usize,
    names: u32,
) -> Result<(), AllocError>
    requires { AreLists lists.old.items names }
    ensures ok { OnOk result (count ≤ length lists.new.items) }
    ensures more { length lists.old.items ≤ length lists.new.items }
    ensures each { AreLists lists.new.items names }
{
    for _ in lists.len()..count {
        let list = Vec::with_capacity(alloc, names as usize)?;
        lists.push(list)?;
    }
    Ok(())
}
