ghost use Rattle.std.specs.Prelude.{IfOk};
ghost use Rattle.fdp_crews.specs.Rooms.{HasRooms};

use crate::sweeper::Sweeper;
use crate::worker::Worker;
use fdp_base::Recorded;
use fdp_lock::Seat;
use fdp_workers::Receipt;
use std::alloc::{AllocError, Global};

/// The memory for all that is kept of crews. It is taken before their lock is made, since each seat that was given out has to come back.
#[derive(Drop)]
pub struct Rooms<V: Recorded> {
    pub workers: Vec<Worker<V>>,
    pub sweepers: Vec<Sweeper<V>>,
    pub seats: Vec<Seat<V>>,
    pub receipts: Vec<Vec<Receipt>>,
}

impl<V: Recorded> Rooms<V> {
    /// Room for so many hosts and collectors.
    pub fn new(alloc: Global, hosts: u8, collectors: u8) -> Result<Rooms<V>, AllocError>
        ensures { IfOk result (HasRooms hosts collectors) }
    {
        let (hosts, collectors) = (usize::from(hosts), usize::from(collectors));
        Ok(Rooms {
            workers: Vec::with_capacity(alloc, hosts)?,
            sweepers: Vec::with_capacity(alloc, collectors)?,
            seats: Vec::with_capacity(alloc, hosts + collectors + 1)?,
            receipts: Vec::with_capacity(alloc, hosts)?,
        })
    }
}
