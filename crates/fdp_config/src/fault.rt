ghost use Rattle.std.specs.Prelude.{◌≡◌, ℕ, List, Some, IfOk, string_bytes};

use crate::key::Key;
use std::alloc::{AllocError, AllocFailed, Global};
use std::fmt;
use std::marker::Model;

/// A word of a text, which contracts see as its bytes.
#[derive(Debug, Drop)]
pub struct Word {
    text: String,
}

impl Model for Word {
    ghost Value = { List ℕ };

    ghost view = { λ w. string_bytes w.text };
}

impl Word {
    /// A copy of the text.
    pub fn from_text(alloc: Global, text: &str) -> Result<Word, AllocError>
        ensures { IfOk result (λ w. w ≡ text.now) }
    {
        Ok(Word {
            text: String::from_str(alloc, text)?,
        })
    }

    pub fn as_str(&self) -> &str
        ensures { result.now ≡ self.now }
    {
        self.text.as_str()
    }
}

impl fmt::Display for Word {
    ghost output = { λ w. Some w };

    fn fmt<W: fmt::Write>(&self, f: &mut fmt::Formatter<W>) -> fmt::Result {
        f.write_str(self.as_str())
    }
}

/// What is wrong with a configuration text. The faults are tried in this order, and within one for the keys in
/// theirs; the first that holds is told.
#[derive(Debug, Drop)]
pub enum ConfigFault {
    /// The text is not a TOML document in UTF-8.
    NotToml,
    /// A configuration has no such key. It is the first in byte order.
    Unknown { key: Word },
    /// The key is not there.
    Missing { key: Key },
    /// A value of another kind stands at the key, or inside its value.
    Kind { key: Key },
    /// The value is out of its range. `value` is the number read, or, where that is no number or below 0, its
    /// position in the array that holds it, from 0.
    Range { key: Key, value: u128 },
    /// The namespaces need more blocks than the drive may store, or a checkpoint more pages than an area has.
    NoRoom { needed: u128, budget: u128 },
    /// Memory ran out.
    NoMemory,
}

/// The words that tell it; for `NoMemory`, which is no fault of the text, words of its own.
impl fmt::Display for ConfigFault {
    ghost use Rattle.fdp_config.specs.Words.{fault_words};

    ghost output = { λ fault. Some (fault_words fault) };

    fn fmt<W: fmt::Write>(&self, f: &mut fmt::Formatter<W>) -> fmt::Result {
        match self {
            ConfigFault::NotToml => f.write_str("config toml"),
            ConfigFault::Unknown { key } => write!(f, "config unknown {key}"),
            ConfigFault::Missing { key } => write!(f, "config missing {}", key.word()),
            ConfigFault::Kind { key } => write!(f, "config kind {}", key.word()),
            ConfigFault::Range { key, .. } => write!(f, "config range {}", key.word()),
            ConfigFault::NoRoom { .. } => f.write_str("config room"),
            ConfigFault::NoMemory => f.write_str("out of memory"),
        }
    }
}

impl std::error::Error for ConfigFault {}

impl From<AllocError> for ConfigFault {
    ghost use Rattle.fdp_config.specs.declared.fault.ConfigFault.TheVariants.{NoMemory};

    ghost from_gives = { λ _ fault. fault ≡ NoMemory };

    fn from(_refused: AllocError) -> ConfigFault {
        ConfigFault::NoMemory
    }
}

impl<T: Drop> From<AllocFailed<T>> for ConfigFault {
    ghost use Rattle.fdp_config.specs.declared.fault.ConfigFault.TheVariants.{NoMemory};

    ghost from_gives = { λ _ fault. fault ≡ NoMemory };

    fn from(_refused: AllocFailed<T>) -> ConfigFault {
        ConfigFault::NoMemory
    }
}

/// Why a drive has no configuration.
#[derive(Debug, Drop)]
pub enum NoConfig {
    /// There is no such text.
    Absent,
    /// The text has more than `LONGEST_CONFIG` bytes.
    TooLong,
    Faulty(ConfigFault),
}

impl fmt::Display for NoConfig {
    ghost use Rattle.fdp_config.specs.Words.{no_config_words};

    ghost output = { λ cause. Some (no_config_words cause) };

    fn fmt<W: fmt::Write>(&self, f: &mut fmt::Formatter<W>) -> fmt::Result {
        match self {
            NoConfig::Absent => f.write_str("config absent"),
            NoConfig::TooLong => f.write_str("config long"),
            NoConfig::Faulty(fault) => write!(f, "{fault}"),
        }
    }
}
