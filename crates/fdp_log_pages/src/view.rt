ghost use Rattle.std.specs.Prelude.{◌≡◌, ◌*◌, ◌==◌, ◌%◌, if◌then◌else◌, length, slice_get};
ghost use Rattle.fdp_base.specs.Placement.{handle_count};
ghost use Rattle.fdp_commands.specs.Lengths.{IsLogLength};
ghost use Rattle.fdp_log_pages.specs.Told.{CanTell, Tells, usage_told};
ghost use Rattle.fdp_pieces.specs.Parts.{PutsPiece};
ghost use Rattle.fdp_rules.specs.LogPages.{log_page, transfer_of, zeros};
ghost use Rattle.fdp_rules.specs.Point.{Point};

use crate::configurations::{configurations_length, put_configurations};
use crate::events::put_events;
use crate::usages::{put_usages, usage_of};
use fdp_base::{Command, DriveConfig, Event, GetLog, LogPage, Totals};
use fdp_layouts::Coded;
use fdp_logs::statistics_log;
use fdp_pieces::put_piece;
use fdp_snapshot::{EventRing, Summary};
use std::marker::Model;

/// A drive as its log pages tell it.
#[derive(Drop)]
pub struct LogView<'a> {
    config: &'a DriveConfig,
    summary: &'a Summary,
    totals: Totals,
}

impl<'a> Model for LogView<'a> {
    ghost use Rattle.fdp_log_pages.specs.Told.{CanTell, Told};

    ghost Value = { Told };

    ghost view = { λ v. record { config = v.config.now; summary = v.summary.now; totals = v.totals } };

    ghost invariant = { λ v. CanTell (record { config = v.config.now; summary = v.summary.now; totals = v.totals }) };
}

impl<'a> LogView<'a> {
    /// The drive of this configuration with this outline and these sums.
    pub fn new(config: &'a DriveConfig, summary: &'a Summary, totals: Totals) -> LogView<'a>
        requires { CanTell (record { config = config.now; summary = summary.now; totals = totals }) }
        ensures { result ≡ record { config = config.now; summary = summary.now; totals = totals } }
    {
        LogView {
            config,
            summary,
            totals,
        }
    }

    /// How many bytes the log has that a command asks for; of another command 0.
    pub fn log_length(&self, command: &Command) -> u64
        ensures { (p : Point) → Tells self.now p → IsLogLength self.now.config p command.now result }
    {
        match command {
            Command::Log(log) => self.page_length(log.lid, log.lsp),
            Command::Write(_)
            | Command::Read(_)
            | Command::Zero(_)
            | Command::Dealloc(_)
            | Command::Flush(_)
            | Command::Delete(_)
            | Command::Status(_)
            | Command::Update(_)
            | Command::SetFdp(_)
            | Command::GetFdp(_)
            | Command::SetEvents(_)
            | Command::Create(_)
            | Command::Other(_) => 0,
        }
    }

    /// Writes so much of a log as was asked for, over zeros. What lies outside of that is not made, but for the head of the page.
    pub fn write_log(&self, log: &GetLog, into: &mut [u8])
        requires { into.old ≡ zeros (4 * log.now.dwords) }
        ensures { (p : Point) → Tells self.now p → into.new ≡ transfer_of log.now.offset log.now.dwords (log_page self.now.config p log.now.lid log.now.lsp) }
    {
        self.put_page(into, log.offset, log.lid, log.lsp);
    }

    /// Whether placement is enabled, and the index of its configuration.
    pub fn setting(&self) -> (bool, u8)
        ensures { (p : Point) → Tells self.now p → (result.0 ≡ p.state.enabled) × (result.1 ≡ p.state.index) }
    {
        (self.summary.enabled, self.summary.index)
    }

    /// Who specified a handle: 0 nobody, since no namespace uses it; 1 a host; 2 the controller. None where there is no such handle.
    pub fn usage(&self, ruh: u8) -> Option<u8>
        ensures { (p : Point) → Tells self.now p → result ≡ usage_told self.now.config p.state ruh }
    {
        if ruh < self.handles() {
            Some(usage_of(self.summary.spaces.as_slice(), ruh).code())
        } else {
            None
        }
    }

    /// An event that is kept of a class, the oldest with index 0; the events of hosts, or those of the controller.
    pub fn event(&self, host: bool, index: u32) -> Option<Event>
        ensures { (p : Point) → Tells self.now p → result ≡ slice_get (if host then p.host_events else p.controller_events) index }
    {
        self.events(u8::from(host)).get(index as usize)
    }

    fn page_length(&self, lid: u8, lsp: u8) -> u64
        ensures { (p : Point) → Tells self.now p → result ≡ length (log_page self.now.config p lid lsp) }
    {
        if lid == LogPage::Configurations.code() {
            u64::from(configurations_length(self.config))
        } else if lid == LogPage::HandleUsage.code() {
            8 + 8 * u64::from(self.handles())
        } else if lid == LogPage::Statistics.code() {
            64
        } else {
            64 + 64 * self.events(lsp).len() as u64
        }
    }

    fn put_page(&self, into: &mut [u8], offset: u64, lid: u8, lsp: u8)
        ensures { (p : Point) → Tells self.now p → PutsPiece offset 0 (log_page self.now.config p lid lsp) into.old into.new }
    {
        if lid == LogPage::Configurations.code() {
            put_configurations(into, offset, self.config);
        } else if lid == LogPage::HandleUsage.code() {
            put_usages(into, offset, self.handles(), self.summary.spaces.as_slice());
        } else if lid == LogPage::Statistics.code() {
            put_piece(into, offset, 0, &statistics_log(self.config, &self.totals));
        } else {
            put_events(into, offset, self.events(lsp));
        }
    }

    /// How many handles there are.
    fn handles(&self) -> u8
        ensures { result ≡ handle_count self.now.config self.now.summary.enabled self.now.summary.index }
    {
        self.config
            .handle_count(self.summary.enabled, self.summary.index)
    }

    /// The events of hosts where bit 0 of the log specific parameter is set, else those of the controller.
    fn events(&self, lsp: u8) -> &EventRing
        ensures { result.now ≡ (if lsp % 2 == 1 then self.now.summary.host_events else self.now.summary.controller_events) }
    {
        if lsp % 2 == 1 {
            &self.summary.host_events
        } else {
            &self.summary.controller_events
        }
    }
}
