//! The codes of the public standard, by their names.

ghost use Rattle.std.specs.Prelude.{◌≡◌};
ghost use Rattle.fdp_base.specs.Codes.{
  admin_code,
  directive_code,
  feature_code,
  io_code,
  log_code,
  log_named,
  receive_code,
  send_code,
};

/// Opcodes of I/O commands (NVM Command Set Specification 1.1, "NVM Command Set Commands"; Base Specification 2.1, "I/O
/// Management Receive command" and "I/O Management Send command").
#[derive(Clone, Copy, Debug, PartialEq, Eq)]
pub enum IoOpcode {
    Flush = 0x00,
    Write = 0x01,
    Read = 0x02,
    WriteZeroes = 0x08,
    DatasetManagement = 0x09,
    IoManagementReceive = 0x12,
    IoManagementSend = 0x1d,
}

/// Opcodes of admin commands (Base Specification 2.1, "Opcodes for Admin Commands").
#[derive(Clone, Copy, Debug, PartialEq, Eq)]
pub enum AdminOpcode {
    GetLogPage = 0x02,
    SetFeatures = 0x09,
    GetFeatures = 0x0a,
    NamespaceManagement = 0x0d,
}

/// Feature identifiers (Base Specification 2.1, "Flexible Data Placement" and "Flexible Data Placement Events").
#[derive(Clone, Copy, Debug, PartialEq, Eq)]
pub enum Feature {
    DataPlacement = 0x1d,
    PlacementEvents = 0x1e,
}

/// Identifiers of the log pages of Flexible Data Placement (Base Specification 2.1, "Get Log Page – Log Page Identifiers").
#[derive(Clone, Copy, Debug, PartialEq, Eq)]
pub enum LogPage {
    /// FDP Configurations.
    Configurations = 0x20,
    /// Reclaim Unit Handle Usage.
    HandleUsage = 0x21,
    /// FDP Statistics.
    Statistics = 0x22,
    /// FDP Events.
    Events = 0x23,
}

/// Management operations of I/O Management Receive (Base Specification 2.1, "I/O Management Receive command").
#[derive(Clone, Copy, Debug, PartialEq, Eq)]
pub enum ReceiveOperation {
    NoAction = 0x00,
    /// Reclaim Unit Handle Status.
    HandleStatus = 0x01,
}

/// Management operations of I/O Management Send (Base Specification 2.1, "I/O Management Send command").
#[derive(Clone, Copy, Debug, PartialEq, Eq)]
pub enum SendOperation {
    NoAction = 0x00,
    /// Reclaim Unit Handle Update.
    HandleUpdate = 0x01,
}

/// Directive types that a write may name (Base Specification 2.1, "Directives").
#[derive(Clone, Copy, Debug, PartialEq, Eq)]
pub enum Directive {
    /// The write has no directive.
    Absent = 0x00,
    DataPlacement = 0x02,
}

impl IoOpcode {
    pub fn code(self) -> u8
        ensures { result ≡ io_code self }
    {
        self as u8
    }
}

impl AdminOpcode {
    pub fn code(self) -> u8
        ensures { result ≡ admin_code self }
    {
        self as u8
    }
}

impl Feature {
    pub fn code(self) -> u8
        ensures { result ≡ feature_code self }
    {
        self as u8
    }
}

impl LogPage {
    /// The log page with this identifier, if the drive has it.
    pub fn named(lid: u8) -> Option<LogPage>
        ensures { result ≡ log_named lid }
    {
        match lid {
            0x20 => Some(LogPage::Configurations),
            0x21 => Some(LogPage::HandleUsage),
            0x22 => Some(LogPage::Statistics),
            0x23 => Some(LogPage::Events),
            _ => None,
        }
    }

    pub fn code(self) -> u8
        ensures { result ≡ log_code self }
    {
        self as u8
    }
}

impl ReceiveOperation {
    pub fn code(self) -> u8
        ensures { result ≡ receive_code self }
    {
        self as u8
    }
}

impl SendOperation {
    pub fn code(self) -> u8
        ensures { result ≡ send_code self }
    {
        self as u8
    }
}

impl Directive {
    pub fn code(self) -> u8
        ensures { result ≡ directive_code self }
    {
        self as u8
    }
}
