ghost use Rattle.std.specs.Prelude.{◌≡◌, ◌≤◌, ◌<◌, ◌∷◌, ◌++◌, [], length};

use arrayvec::ArrayVec;
use std::marker::Model;

/// The reclaim unit handles of a namespace, by placement handle: at most sixteen, in place. Contracts see them as a list.
#[derive(Debug, Drop)]
pub struct NamespaceHandles {
    list: ArrayVec<u8, 16>,
}

impl Model for NamespaceHandles {
    ghost use Rattle.std.specs.Prelude.{ℕ, List};

    ghost Value = { List ℕ };

    ghost view = { λ h. h.list.items };
}

impl NamespaceHandles {
    /// No handle yet.
    pub fn new() -> NamespaceHandles
        ensures { result ≡ [] }
    {
        NamespaceHandles {
            list: ArrayVec::new(),
        }
    }

    /// These handles.
    pub fn of_slice(handles: &[u8]) -> NamespaceHandles
        requires { length handles.now ≤ 16 }
        ensures { result ≡ handles.now }
    {
        let mut list = NamespaceHandles::new();
        for ruh in handles {
            list.push(*ruh);
        }
        list
    }

    /// Puts a handle behind the others.
    pub fn push(&mut self, ruh: u8)
        requires { length self.old < 16 }
        ensures { self.new ≡ self.old ++ ruh ∷ [] }
    {
        self.list.push(ruh);
    }

    /// The handles.
    pub fn as_slice(&self) -> &[u8]
        ensures { result.now ≡ self.now }
    {
        self.list.as_slice()
    }
}
