//! Runs of which each call of the flash fails in turn.
ghost use Rattle.fdp_base.specs.Config.{IsValidConfig};

use crate::drive::Drive;
use crate::heard::Heard;
use crate::images::count_if;
use crate::judged::{Judged, judge, status_of};
use crate::listed::is_loss;
use crate::moves::{Asked, Move, Written};
use crate::numbers::Range;
use crate::play::make;
use crate::played::{Left, Played, begin};
use crate::tally::Tally;
use crate::texts::outcome_text;
use fdp_base::{DriveConfig, Entry, Sequence, Status};
use fdp_flash::{Outcome, Plan};
use std::alloc::{AllocError, Global};

/// What came of the runs of one outcome.
#[derive(Clone, Copy)]
struct Runs {
    runs: u64,
    /// Those of which one call failed, and just its command or its step of relocation tells of it.
    told: u64,
    /// Those whose whole history the plain drive takes.
    taken: u64,
    /// Those after which each block reads as the history says.
    read: u64,
    /// Those after which a block is written.
    written: u64,
    /// How many lost units, shut handles and worn groups they tell of.
    losses: u64,
    tally: Tally,
}

/// What a drive does after a run.
#[derive(Clone, Copy)]
struct After {
    read: bool,
    written: bool,
}

/// Plays rows on a drive once for each call of a range and each outcome, and tells what came of it.
pub fn every_text<D: Drive>(
    alloc: Global,
    config: &DriveConfig,
    rows: &[String],
    calls: Range,
) -> Result<String, AllocError>
    requires { IsValidConfig config.now }
{
    let mut text = String::new(alloc);
    for outcome in [Outcome::Blank, Outcome::Whole, Outcome::Torn] {
        let mut runs = Runs::new();
        for call in calls.first..calls.end {
            if calls.has(call) {
                run::<D>(alloc, config, rows, call, outcome, &mut runs)?;
            }
        }
        if !text.is_empty() {
            text.push_str("\n  ")?;
        }
        let line = runs.text(alloc, outcome)?;
        text.push_str(&line)?;
    }
    Ok(text)
}

/// A run of which one call fails.
fn run<D: Drive>(
    alloc: Global,
    config: &DriveConfig,
    rows: &[String],
    call: u64,
    outcome: Outcome,
    runs: &mut Runs,
) -> Result<(), AllocError>
    requires { IsValidConfig config.now }
{
    let mut played: Played<D> = begin(alloc, config, failing(alloc, call, outcome)?)?;
    let mut heard = Heard::new(alloc);
    for row in rows {
        played.play(alloc, config, row, &mut heard)?;
    }
    let after = go_on(alloc, config, &mut played)?;
    if let Some(left) = played.finish()? {
        let judged = judge::<D>(alloc, config, &left)?;
        runs.note(&judged, &left, call, after, &heard.tally);
    }
    Ok(())
}

/// Reads each block, and writes one.
fn go_on<D: Drive>(
    alloc: Global,
    config: &DriveConfig,
    played: &mut Played<D>,
) -> Result<After, AllocError> {
    let read = played.is_right(alloc, config)?;
    let written = match played.drive() {
        Some(drive) => writes(alloc, drive)?,
        None => false,
    };
    Ok(After { read, written })
}

/// Whether the first block of the first namespace is written.
fn writes<D: Drive>(alloc: Global, drive: &mut D) -> Result<bool, AllocError> {
    let asked = Asked::Write(Written {
        nsid: 1,
        slba: 0,
        count: 1,
        dtype: 0,
        dspec: 0,
        seed: 1,
    });
    let came = make(alloc, drive, Move::Whole(1, asked))?;
    Ok(status_of(&came) == Some(Status::SUCCESS))
}

fn losses_of(entries: &[Entry]) -> u64 {
    let mut count = 0u64;
    for entry in entries {
        count_if(&mut count, is_loss(entry));
    }
    count
}

/// The call of this moment is to fail.
fn failing(alloc: Global, call: u64, outcome: Outcome) -> Result<Plan, AllocError> {
    let mut failing = Vec::new(alloc);
    failing.push((call, outcome))?;
    Ok(Plan {
        calls: 0,
        failing: Sequence::from_vec(failing),
        stop: None,
    })
}

/// How many replies of this moment are media errors.
fn media_at(entries: &[Entry], moment: u64) -> u64 {
    let mut count = 0u64;
    for entry in entries {
        if let Some(host) = entry.as_host() {
            if host.moment == moment && is_media_error(host.reply.status) {
                count = count.saturating_add(1);
            }
        }
    }
    count
}

fn is_media_error(status: Status) -> bool {
    status == Status::WRITE_FAULT || status == Status::UNRECOVERED_READ_ERROR
}

impl Runs {
    fn new() -> Runs {
        Runs {
            runs: 0,
            told: 0,
            taken: 0,
            read: 0,
            written: 0,
            losses: 0,
            tally: Tally::new(),
        }
    }

    fn note(&mut self, judged: &Judged, left: &Left, call: u64, after: After, tally: &Tally) {
        let media = media_at(&left.entries, call);
        let told = media == tally.media && media.saturating_add(tally.fault) == 1;
        count_if(&mut self.runs, true);
        count_if(&mut self.told, told && judged.faults == 1);
        count_if(&mut self.taken, judged.taken == judged.entries);
        count_if(&mut self.read, after.read);
        count_if(&mut self.written, after.written);
        self.losses = self.losses.saturating_add(losses_of(&left.entries));
        self.tally.add(tally);
    }

    fn text(&self, alloc: Global, outcome: Outcome) -> Result<String, AllocError> {
        let runs = format!(in alloc;
            "{}: {} runs, {} told, {} taken, {} read, {} written",
            outcome_text(outcome),
            self.runs,
            self.told,
            self.taken,
            self.read,
            self.written
        )?;
        let tally = self.tally.text(alloc)?;
        format!(in alloc; "{runs}; {} losses; {tally}", self.losses)
    }
}
