//! Drives on which rows are played, over openings of their flash.
ghost use Rattle.fdp_base.specs.Config.{IsValidConfig};

use crate::contents::{contents_of, reads_as};
use crate::drive::{Drive, Opened};
use crate::heard::Heard;
use crate::play::play;
use fdp_base::{DriveConfig, Entry, Totals};
use fdp_flash::{Flash, FlashMem, Plan};
use std::alloc::{AllocError, Global};

/// A drive, and what its history was before it was opened last; or none, once an opening failed.
#[derive(Drop)]
pub struct Played<D> {
    drive: Option<D>,
    before: Vec<Entry>,
}

/// What is left of a drive: its flash, its history over all openings, and the sums of it.
#[derive(Drop)]
pub struct Left {
    pub flash: FlashMem,
    pub entries: Vec<Entry>,
    pub totals: Totals,
}

/// A drive on a blank flash, of which the calls of a plan fail.
pub fn begin<D: Drive>(
    alloc: Global,
    config: &DriveConfig,
    plan: Plan,
) -> Result<Played<D>, AllocError>
    requires { IsValidConfig config.now }
{
    let flash = FlashMem::new(alloc, config.geometry(), plan)?;
    let drive = match D::open(alloc, flash, config)? {
        Opened::Drive(drive) => Some(drive),
        Opened::Fault(_why) => None,
    };
    Ok(Played {
        drive,
        before: Vec::new(alloc),
    })
}

/// How many calls it takes to open a blank flash.
pub fn calls_of_opening<D: Drive>(alloc: Global, config: &DriveConfig) -> Result<u64, AllocError>
    requires { IsValidConfig config.now }
{
    let played: Played<D> = begin(alloc, config, Plan::empty(alloc))?;
    match played.finish()? {
        Some(left) => Ok(left.flash.moment()),
        None => Ok(0),
    }
}

impl<D: Drive> Played<D> {
    /// The drive that is open.
    pub fn drive(&mut self) -> Option<&mut D> {
        let _ = &self.before; // proof
        self.drive.as_mut()
    }

    /// Plays a row: `reopen`, `right`, or moves.
    pub fn play(
        &mut self,
        alloc: Global,
        config: &DriveConfig,
        row: &str,
        heard: &mut Heard,
    ) -> Result<(), AllocError>
        requires { IsValidConfig config.now }
    {
        match row {
            "reopen" => self.reopen(alloc, config, heard),
            "right" => {
                let right = self.is_right(alloc, config)?;
                heard
                    .answers
                    .push(alloc, if right { "right" } else { "WRONG" })
            }
            _ => match &mut self.drive {
                Some(drive) => play(alloc, drive, row, heard),
                None => heard.answers.push(alloc, "no drive"),
            },
        }
    }

    /// Whether each block reads as the whole history says.
    pub fn is_right(&mut self, alloc: Global, config: &DriveConfig) -> Result<bool, AllocError> {
        let Some(drive) = &mut self.drive else {
            return Ok(false);
        };
        let mut contents = contents_of(alloc, config, &self.before, self.before.len())?;
        contents.follow(alloc, drive.entries(), drive.entries().len())?;
        reads_as(alloc, drive, &contents)
    }

    /// Opens the flash again. Of the history counts what the image stands for.
    fn reopen(
        &mut self,
        alloc: Global,
        config: &DriveConfig,
        heard: &mut Heard,
    ) -> Result<(), AllocError>
        requires { IsValidConfig config.now }
    {
        let Some(drive) = self.drive.take() else {
            return heard.answers.push(alloc, "no drive");
        };
        let (flash, entries) = drive.finish();
        push_all(&mut self.before, entries)?;
        match D::open(alloc, flash, config)? {
            Opened::Drive(drive) => {
                let text = format!(in alloc; "{}/{}", count_before(&drive), self.before.len())?;
                self.before.truncate(count_before(&drive));
                self.drive = Some(drive);
                heard.answers.push(alloc, &text)
            }
            Opened::Fault(why) => heard.answers.push(alloc, &why),
        }
    }

    /// Ends the drive, if one is open.
    pub fn finish(self) -> Result<Option<Left>, AllocError> {
        let Played { drive, before } = self;
        let Some(drive) = drive else {
            return Ok(None);
        };
        let totals = drive.totals();
        let (flash, last) = drive.finish();
        let mut entries = before;
        push_all(&mut entries, last)?;
        Ok(Some(Left {
            flash,
            entries,
            totals,
        }))
    }
}

/// Puts entries behind others.
pub fn push_all(entries: &mut Vec<Entry>, others: Vec<Entry>) -> Result<(), AllocError> {
    for entry in others {
        entries.push(entry)?;
    }
    Ok(())
}

/// How many entries the image stood for on which a drive was opened.
pub fn count_before<D: Drive>(drive: &D) -> usize {
    drive.first().saturating_sub(1) as usize
}
