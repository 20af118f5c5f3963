ghost use Rattle.std.specs.Prelude.{◌≡◌, IfOk};
ghost use Rattle.fdp_base.specs.Config.{IsInRange};
ghost use Rattle.fdp_image.specs.Checkpoint.{reading_of_state};

use crate::apply::apply_to;
use crate::index::owners_of;
use crate::parts::Parts;
use fdp_base::{DriveConfig, Sequence, Totals};
use fdp_outline::Outline;
use fdp_records::Change;
use fdp_replay::{Refusal, Replayed};
use fdp_snapshot::State;
use std::alloc::{AllocError, Global};
use std::marker::Model;

/// The state of a drive as it is read from an image.
#[derive(Drop)]
pub struct LoadedState<'a> {
    config: &'a DriveConfig,
    parts: Parts,
}

impl<'a> Model for LoadedState<'a> {
    ghost use Rattle.fdp_state.specs.Loaded.{IsLoaded, Loaded};

    ghost Value = { Loaded };

    ghost view = { λ s. record { config = s.config.now; parts = s.parts } };

    ghost invariant = { λ s. IsLoaded s.config.now s.parts };
}

impl<'a> LoadedState<'a> {
    ghost use Rattle.fdp_state.specs.Loaded.{IsDriveState, said_by};

    /// The state that a checkpoint says. It takes memory for a table of the data pages, and fails only for want of it.
    #[tactic(auto, unfolding(fdp_image::specs::Checkpoint::reading_of_state))]
    pub fn new(
        alloc: Global,
        config: &'a DriveConfig,
        state: State,
    ) -> Result<LoadedState<'a>, AllocError>
        requires config { IsInRange config.now }
        requires state { IsDriveState config.now state }
        ensures config { IfOk result (λ s. s.config ≡ config.now) }
        ensures said { IfOk result (λ s. said_by s ≡ reading_of_state state) }
    {
        let owners = owners_of(alloc, config, &state)?;
        let State { summary, pages } = state;
        Ok(LoadedState {
            config,
            parts: Parts {
                outline: Outline::new(alloc, summary),
                pages: pages.into_vec(),
                owners,
            },
        })
    }

    /// The state, as a checkpoint says it.
    #[tactic(auto, unfolding(fdp_image::specs::Checkpoint::reading_of_state))]
    pub fn into_state(self) -> State
        ensures said { reading_of_state result ≡ said_by self.entry }
        ensures state { IsDriveState self.entry.config result }
    {
        let LoadedState { config: _, parts } = self;
        let Parts {
            outline,
            pages,
            owners: _,
        } = parts;
        State {
            summary: outline.into_summary(),
            pages: Sequence::from_vec(pages),
        }
    }
}

impl<'a> Replayed for LoadedState<'a> {
    ghost use Rattle.fdp_image.specs.Fits.{fits};
    ghost use Rattle.fdp_state.specs.Loaded.{said_by};

    ghost config = { λ s. s.config };

    ghost reading = { said_by };

    ghost fits = { fits };

    fn apply(&mut self, alloc: Global, change: Change, totals: Totals) -> Result<(), Refusal> {
        match apply_to(alloc, self.config, &mut self.parts, change, totals) {
            Ok(()) => Ok(()),
            Err(refusal) => Err(refusal),
        }
    }
}
