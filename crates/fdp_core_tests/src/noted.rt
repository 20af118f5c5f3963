ghost use Rattle.std.specs.Prelude.{◌≡◌};

use fdp_core::Ticket;

/// The number and the position of a write that was started. A ticket cannot be let go of, and these can, so that a player may be
/// dropped at any time.
#[derive(Clone, Copy, Debug, PartialEq, Eq)]
pub struct Noted {
    pub number: u16,
    pub position: u64,
}

impl Noted {
    /// The parts of a ticket.
    pub fn of(ticket: Ticket) -> Noted
        ensures { result ≡ record { number = ticket.number; position = ticket.position } }
    {
        let Ticket {
            queue: _,
            number,
            position,
        } = ticket;
        Noted { number, position }
    }

    /// The ticket of these parts.
    pub fn ticket(self, queue: u8) -> Ticket
        ensures { result ≡ record { queue = queue; number = self.number; position = self.position } }
    {
        Ticket {
            queue,
            number: self.number,
            position: self.position,
        }
    }
}
