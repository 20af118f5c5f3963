//! The rows of a table.
//!
//! - `drive KEY=VALUE ..` begins anew on a drive of this configuration, each word of which is one of its lines, beside those that all
//!   drives here have in common. `again` begins anew on the last such drive.
//! - `fails CALL OUTCOME ..` stands before these: those calls of the drive's flash fail. `fails-each FIRST LAST STEP` lets calls fail with
//!   blank, whole and torn pages in turn. Calls are counted from behind the opening of the new drive, here and below.
//! - `each FROM TO STEP MOVE ..` makes moves for each number, which stands for `$` in them.
//! - `do QUEUE COMMAND` plays a command, which is written as in a trace.
//! - `seed SEED MOVES IDENTIFIER ..` makes so many moves that a generator chooses, `hosts SEED MOVES IDENTIFIER ..` those without steps of
//!   relocation.
//! - `overwrites SEED COUNT` and `skewed SEED COUNT` make so many writes of one block that a generator chooses, of all blocks or mostly of a
//!   fifth of them.
//! - `reopen` opens the flash again: so many entries of the history it stood for, of so many. `right` reads each block of each namespace, and
//!   compares it with what the history says.
//! - `starts`, `passes MOST` and `losses` list entries of the history since the last opening; `toil GROUP` is the work of relocation there,
//!   `sums` what was written, programmed, copied, moved and erased.
//! - `end` ends the drive, and tells its history and its sums; `units` ends it, and lists what its pages hold.
//! - The moves since the last drive began are made again by these: by `every FIRST LAST STEP` once for each of these calls, which fails;
//!   `stops FIRST LAST STEP` stops them in each of these calls, `stops` in the last one, `stops-opening` in those of the first opening, and opens
//!   what is left; `stops-twice FIRST LAST STEP` stops each of these openings in turn, too; `damage FIRST LAST STEP HOW` changes each of these pages
//!   in turn, and opens what is left.
//! - Blank rows and those that begin with `#` say nothing. All others are moves.
ghost use Rattle.fdp_base.specs.Config.{IsValidConfig};

use crate::damage::{Damage, damage_text};
use crate::drive::Drive;
use crate::every::every_text;
use crate::heard::Heard;
use crate::judged::judge;
use crate::listed::{losses_text, passes_text, starts_text, sums_text};
use crate::numbers::{Range, plain_number};
use crate::played::{Left, Played, begin, calls_of_opening};
use crate::stops::{left_by, listing, stops_text};
use crate::texts::outcome_of;
use crate::units::units_text;
use fdp_base::{DriveConfig, Sequence};
use fdp_config::read_config;
use fdp_flash::{Flash, Outcome, Plan};
use std::alloc::{AllocError, Global};
use std::mem;

/// The lines that all drives have in common.
const COMMON: &str = "index=0\nqueue_depth=64\ncollectors=0\nturns=0\n";

/// The drive of the last `drive` row, and the calls that fail on the next one.
#[derive(Drop)]
pub struct Rows<D> {
    text: String,
    /// The rows of moves since it began.
    played: Vec<String>,
    drive: Option<Played<D>>,
    /// The calls that fail on it, and on the next one.
    failed: Vec<(u64, Outcome)>,
    failing: Vec<(u64, Outcome)>,
}

impl<D: Drive> Rows<D> {
    pub fn new(alloc: Global) -> Rows<D> {
        Rows {
            text: String::new(alloc),
            played: Vec::new(alloc),
            drive: None,
            failed: Vec::new(alloc),
            failing: Vec::new(alloc),
        }
    }

    /// What a row is answered, empty where it says nothing.
    pub fn answer(&mut self, alloc: Global, row: &str) -> Result<String, AllocError> {
        if row.is_empty() || row.starts_with('#') {
            return Ok(String::new(alloc));
        }
        let (word, rest) = row.split_once(' ').unwrap_or((row, ""));
        match word {
            "fails" => self.plan(alloc, rest),
            "fails-each" => self.plan_each(alloc, rest),
            "drive" => {
                self.describe(alloc, rest)?;
                self.answer_on(alloc, row, word, rest)
            }
            _ => self.answer_on(alloc, row, word, rest),
        }
    }

    /// The next drives have these lines.
    fn describe(&mut self, alloc: Global, words: &str) -> Result<(), AllocError> {
        self.text = String::from_str(alloc, COMMON)?;
        for word in words.split_whitespace() {
            self.text.push_str(word)?;
            self.text.push('\n')?;
        }
        Ok(())
    }

    /// Calls that fail on the next drive.
    fn plan(&mut self, alloc: Global, words: &str) -> Result<String, AllocError> {
        let mut call = None;
        for word in words.split_whitespace() {
            match (call, outcome_of(word)) {
                (Some(at), Some(outcome)) => self.failing.push((at, outcome))?,
                _ => call = plain_number(word),
            }
        }
        answer_if(alloc, call.is_some(), "no row")
    }

    /// Calls that fail on the next drive, at each so many.
    fn plan_each(&mut self, alloc: Global, words: &str) -> Result<String, AllocError> {
        let Some(range) = Range::of(words) else {
            return String::from_str(alloc, "no row");
        };
        let mut outcome = Outcome::Blank;
        for call in range.first..range.end {
            if range.has(call) {
                self.failing.push((call, outcome))?;
                outcome = next_outcome(outcome);
            }
        }
        Ok(String::new(alloc))
    }

    /// A row on a drive of the last configuration.
    fn answer_on(
        &mut self,
        alloc: Global,
        row: &str,
        word: &str,
        rest: &str,
    ) -> Result<String, AllocError> {
        let Ok(config) = read_config(alloc, self.text.as_bytes()) else {
            return String::from_str(alloc, "no drive");
        };
        match word {
            "drive" | "again" => self.begin(alloc, &config),
            "every" | "stops" | "stops-twice" | "stops-opening" | "damage" => {
                self.play_again(alloc, &config, word, rest)
            }
            "end" | "units" => self.end(alloc, &config, word),
            "starts" | "losses" | "passes" | "sums" | "toil" => self.ask(alloc, word, rest),
            _ => self.play(alloc, &config, row),
        }
    }

    /// Begins anew.
    fn begin(&mut self, alloc: Global, config: &DriveConfig) -> Result<String, AllocError>
        requires { IsValidConfig config.now }
    {
        let opening = calls_of_opening::<D>(alloc, config)?;
        let failing = mem::replace(&mut self.failing, Vec::new(alloc));
        self.failed = later(alloc, &failing, opening)?;
        self.played.clear();
        let plan = Plan {
            calls: 0,
            failing: Sequence::from_vec(later(alloc, &failing, opening)?),
            stop: None,
        };
        self.drive = Some(begin(alloc, config, plan)?);
        Ok(String::new(alloc))
    }

    /// Ends the drive.
    fn end(&mut self, alloc: Global, config: &DriveConfig, word: &str) -> Result<String, AllocError>
        requires { IsValidConfig config.now }
    {
        let Some(played) = self.drive.take() else {
            return String::from_str(alloc, "no drive");
        };
        match played.finish()? {
            Some(left) if word == "units" => units_text(alloc, &left.flash),
            Some(left) => judge::<D>(alloc, config, &left)?.text(alloc),
            None => String::from_str(alloc, "no drive"),
        }
    }

    /// A row of moves: the answers to them, of those of a generator how many there are of each kind.
    fn play(&mut self, alloc: Global, config: &DriveConfig, row: &str) -> Result<String, AllocError>
        requires { IsValidConfig config.now }
    {
        self.played.push(String::from_str(alloc, row)?)?;
        let Some(played) = &mut self.drive else {
            return String::from_str(alloc, "no drive");
        };
        let mut heard = Heard::new(alloc);
        played.play(alloc, config, row, &mut heard)?;
        let Heard { answers, tally } = heard;
        if answers.is_empty() {
            tally.text(alloc)
        } else {
            answers.into_text(alloc)
        }
    }

    /// What a row asks of the drive.
    fn ask(&mut self, alloc: Global, word: &str, rest: &str) -> Result<String, AllocError> {
        match &mut self.drive {
            Some(played) => match played.drive() {
                Some(drive) => asked_text(alloc, drive, word, rest),
                None => String::from_str(alloc, "no drive"),
            },
            None => String::from_str(alloc, "no drive"),
        }
    }

    /// A row that plays the moves since the drive began again.
    fn play_again(
        &self,
        alloc: Global,
        config: &DriveConfig,
        word: &str,
        rest: &str,
    ) -> Result<String, AllocError>
        requires { IsValidConfig config.now }
    {
        let opening = calls_of_opening::<D>(alloc, config)?;
        match (word, Range::of(rest)) {
            ("every", Some(range)) => {
                every_text::<D>(alloc, config, &self.played, range.later(opening))
            }
            ("every", None) => String::from_str(alloc, "no row"),
            (_, range) => {
                let plan = listing(later(alloc, &self.failed, 0)?);
                match left_by::<D>(alloc, config, plan, &self.played)? {
                    Some(left) => { stopped_text::<D>(alloc, config, &left, word, range, opening) }
                    None => String::from_str(alloc, "no drive"),
                }
            }
        }
    }
}

/// What comes of the images of a run, stopped or damaged.
fn stopped_text<D: Drive>(
    alloc: Global,
    config: &DriveConfig,
    left: &Left,
    word: &str,
    range: Option<Range>,
    opening: u64,
) -> Result<String, AllocError>
    requires { IsValidConfig config.now }
{
    match (word, range) {
        ("stops", Some(range)) => {
            stops_text::<D>(alloc, config, left, range.later(opening), false)
        }
        ("stops-twice", Some(range)) => {
            stops_text::<D>(alloc, config, left, range.later(opening), true)
        }
        ("stops", None) => {
            let last = left.flash.moment();
            stops_text::<D>(alloc, config, left, Range::each(last, last), false)
        }
        ("stops-opening", None) => {
            stops_text::<D>(alloc, config, left, Range::each(1, opening), true)
        }
        ("damage", Some(range)) => match Damage::of(range.rest) {
            Some(damage) => damage_text::<D>(alloc, config, left, range, damage),
            None => String::from_str(alloc, "no row"),
        },
        _ => String::from_str(alloc, "no row"),
    }
}

/// What a row asks for.
fn asked_text<D: Drive>(
    alloc: Global,
    drive: &D,
    word: &str,
    rest: &str,
) -> Result<String, AllocError> {
    match (word, plain_number(rest)) {
        ("starts", _) => starts_text(alloc, drive.entries()),
        ("losses", _) => losses_text(alloc, drive.entries()),
        ("sums", _) => sums_text(alloc, drive.entries(), drive.totals()),
        ("passes", Some(most)) => passes_text(alloc, drive.entries(), most),
        ("toil", Some(rg)) => toil_text(alloc, drive, rg),
        _ => String::from_str(alloc, "no row"),
    }
}

fn toil_text<D: Drive>(alloc: Global, drive: &D, rg: u64) -> Result<String, AllocError> {
    let toil = match u16::try_from(rg) {
        Ok(rg) => drive.toil(rg),
        Err(_) => None,
    };
    match toil {
        Some(toil) => format!(in alloc; "{toil}"),
        None => String::from_str(alloc, "no group"),
    }
}

/// Calls that are so much later.
fn later(
    alloc: Global,
    calls: &[(u64, Outcome)],
    by: u64,
) -> Result<Vec<(u64, Outcome)>, AllocError> {
    let mut later = Vec::new(alloc);
    for &(call, outcome) in calls {
        later.push((call.saturating_add(by), outcome))?;
    }
    Ok(later)
}

fn next_outcome(outcome: Outcome) -> Outcome {
    match outcome {
        Outcome::Blank => Outcome::Whole,
        Outcome::Whole => Outcome::Torn,
        Outcome::Torn => Outcome::Blank,
    }
}

fn answer_if(alloc: Global, holds: bool, otherwise: &str) -> Result<String, AllocError> {
    String::from_str(alloc, if holds { "" } else { otherwise })
}
