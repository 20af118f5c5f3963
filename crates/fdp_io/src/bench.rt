ghost use Rattle.std.specs.Prelude.{◌≡◌, ◌≤◌, IsTrue};
ghost use Rattle.fdp_base.specs.Geometry.{IsValidGeometry};
ghost use Rattle.fdp_io.specs.Bench.{BenchState, CountsFailedRead, PutsBack, ReadsText, ReplacesOnDone, SameFlashes, SameTexts, TakesFlash};

use fdp_base::Geometry;
use fdp_flash::Flash;
use std::alloc::Global;

/// How a read of a text ended.
#[derive(Clone, Copy, Debug, PartialEq, Eq)]
pub enum TextRead {
    Done,
    /// There is no text of that name.
    Missing,
    /// The text is longer than the limit.
    TooLong,
    /// The read failed, and was counted.
    Failed,
    NoMemory,
}

/// Why a flash was not handed out.
#[derive(Clone, Copy, Debug, PartialEq, Eq)]
pub enum NotTaken {
    /// The call failed, and was counted; so it does for a flash that is out.
    Failed,
    NoMemory,
}

/// Where a run finds its texts and its flash.
pub trait Bench {
    /// The flashes that it hands out.
    type F: Flash + Send + Drop;

    /// Its count of faults, the texts and the flashes that it tells, by the bytes of their names, and which flashes are out.
    ghost state: { Self → BenchState };

    /// How many calls failed. It stays at its last value.
    fn faults(&self) -> u64
        ensures { result ≡ (state self.now).faults };

    /// Reads the text of a name into `into`, in the place of what was there.
    fn read_text(&mut self, name: &str, into: &mut Vec<u8>, limit: u64) -> TextRead
        ensures kept { SameTexts (state self.old) (state self.new) }
        ensures flashes { SameFlashes (state self.old) (state self.new) }
        ensures faults { (state self.old).faults ≤ (state self.new).faults }
        ensures counts { CountsFailedRead (state self.old).faults (state self.new).faults result }
        ensures replaces { ReplacesOnDone into.old.items into.new.items result }
        ensures answer { ReadsText (state self.old) (state self.new) name.now limit into.new.items result };

    /// Hands out the flash of a name, which has a geometry of its own, or a blank one of this geometry where there is none. A flash that is
    /// out is not handed out once more.
    fn take_flash(
        &mut self,
        alloc: Global,
        name: &str,
        geometry: Geometry,
    ) -> Result<Self::F, NotTaken>
        requires { IsValidGeometry geometry }
        ensures texts { SameTexts (state self.old) (state self.new) }
        ensures faults { (state self.old).faults ≤ (state self.new).faults }
        ensures answer { TakesFlash Self.F.state (state self.old) (state self.new) name.now geometry result };

    /// Takes a flash back that was handed out. It takes no memory. Where the call fails, that is counted, and the flash is back all the same.
    fn give_flash(&mut self, name: &str, flash: Self::F)
        requires { IsTrue ((state self.old).is_out name.now) }
        ensures texts { SameTexts (state self.old) (state self.new) }
        ensures faults { (state self.old).faults ≤ (state self.new).faults }
        ensures back { PutsBack (state self.old) (state self.new) name.now (Self.F.state flash) };
}
