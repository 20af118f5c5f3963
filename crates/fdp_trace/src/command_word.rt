ghost use Rattle.std.specs.Prelude.{◌≡◌, bytes_eq};
ghost use Rattle.fdp_trace.specs.Reader.Shapes.{word_named, accepts, is_fixed, is_choice};

/// The first word of a line.
#[derive(Clone, Copy, Debug, PartialEq, Eq)]
pub enum CommandWord {
    Write,
    Read,
    Zero,
    Dealloc,
    Flush,
    Status,
    Update,
    Log,
    SetFdp,
    GetFdp,
    SetEvents,
    Create,
    Delete,
}

impl CommandWord {
    #[tactic(auto, unfolding(crate::specs::Reader::Shapes::word_named))]
    pub fn from_text(text: &[u8]) -> Option<CommandWord>
        ensures { result ≡ word_named text.now }
    {
        if is_text(text, b"write") {
            Some(CommandWord::Write)
        } else if is_text(text, b"read") {
            Some(CommandWord::Read)
        } else if is_text(text, b"zero") {
            Some(CommandWord::Zero)
        } else if is_text(text, b"dealloc") {
            Some(CommandWord::Dealloc)
        } else if is_text(text, b"flush") {
            Some(CommandWord::Flush)
        } else if is_text(text, b"status") {
            Some(CommandWord::Status)
        } else if is_text(text, b"update") {
            Some(CommandWord::Update)
        } else if is_text(text, b"log") {
            Some(CommandWord::Log)
        } else if is_text(text, b"set-fdp") {
            Some(CommandWord::SetFdp)
        } else if is_text(text, b"get-fdp") {
            Some(CommandWord::GetFdp)
        } else if is_text(text, b"set-events") {
            Some(CommandWord::SetEvents)
        } else if is_text(text, b"create") {
            Some(CommandWord::Create)
        } else if is_text(text, b"delete") {
            Some(CommandWord::Delete)
        } else {
            None
        }
    }

    /// Whether so many words may follow.
    pub fn accepts(self, count: usize) -> bool
        ensures { result ≡ accepts self count }
    {
        match self {
            CommandWord::Write => count == 4 || count == 6,
            CommandWord::Read | CommandWord::Zero => count == 3,
            CommandWord::Dealloc => (3..=513).contains(&count) && count % 2 == 1,
            CommandWord::Flush | CommandWord::Delete => count == 1,
            CommandWord::Status | CommandWord::SetFdp => count == 2,
            CommandWord::Update => (2..=257).contains(&count),
            CommandWord::Log => count == 3 || count == 4,
            CommandWord::GetFdp => count == 0,
            CommandWord::SetEvents => (4..=9).contains(&count),
            CommandWord::Create => (1..=33).contains(&count),
        }
    }

    /// Whether a fixed word stands at this place behind it, and no number.
    pub fn is_fixed(self, place: usize) -> bool
        ensures { result ≡ is_fixed self place }
    {
        match self {
            CommandWord::Write => place == 4,
            CommandWord::Log => place == 3,
            CommandWord::SetFdp => place == 0,
            CommandWord::SetEvents => place == 2,
            CommandWord::Read
            | CommandWord::Zero
            | CommandWord::Dealloc
            | CommandWord::Flush
            | CommandWord::Status
            | CommandWord::Update
            | CommandWord::GetFdp
            | CommandWord::Create
            | CommandWord::Delete => false,
        }
    }

    /// Whether this is a word for the fixed place.
    pub fn is_choice(self, text: &[u8]) -> bool
        ensures { result ≡ is_choice self text.now }
    {
        match self {
            CommandWord::Write => is_text(text, b"pid"),
            CommandWord::Log => is_text(text, b"host") || is_text(text, b"ctrl"),
            CommandWord::SetFdp | CommandWord::SetEvents => is_text(text, b"on")
                || is_text(text, b"off"),
            CommandWord::Read
            | CommandWord::Zero
            | CommandWord::Dealloc
            | CommandWord::Flush
            | CommandWord::Status
            | CommandWord::Update
            | CommandWord::GetFdp
            | CommandWord::Create
            | CommandWord::Delete => false,
        }
    }
}

pub fn is_text(text: &[u8], word: &[u8]) -> bool
    ensures { result ≡ bytes_eq text.now word.now }
{
    text == word
}
