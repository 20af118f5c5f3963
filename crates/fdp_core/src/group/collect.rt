ghost use Rattle.std.specs.Prelude.{◌≡◌, ◌<◌, [], length};
ghost use Rattle.fdp_core.specs.Answers.{Collects};
ghost use Rattle.fdp_core.specs.Stops.{OutlastsStops};
ghost use Rattle.fdp_relocation.specs.declared.advance.Advance.TheVariants.{Moved};
ghost use Rattle.fdp_relocation.specs.fdp_book.Book.{point_in};
ghost use Rattle.fdp_rules.specs.Sites.{moved_blocks};

use super::Group;
use fdp_flash::Flash;
use fdp_relocation::Advance;

impl<F: Flash> Group<F> {
    /// The next step of relocation in a group. It makes at most two calls of the flash. A move takes a step for each copy; each other step
    /// looks at pages of the victim. A move of blocks that is told as made is firm: no stop loses it.
    pub fn collect(&mut self, rg: u16) -> Advance
        requires group { rg < self.old.book.config.groups }
        requires spare { 0 < self.old.book.spare }
        ensures step { Collects F.state self.old self.new rg result }
        ensures stops { OutlastsStops F.state self.old self.new }
        ensures firm { result ≡ Moved → (moved_blocks (point_in self.old.book) rg ≡ [] → ⊥) → self.new.keeper.firm ≡ length self.new.book.entries }
    {
        self.book.begin();
        let advance = self.advance(rg);
        if self.book.has_added_nothing() {
            self.book.cancel();
        }
        advance
    }
}
