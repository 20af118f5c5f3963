ghost use Rattle.std.specs.Prelude.{◌≡◌, if◌then◌else◌, slice_get};
ghost use Rattle.fdp_relocation.specs.fdp_book.Book.{point_in, state_in};
ghost use Rattle.fdp_log_pages.specs.Told.{usage_told};

use super::Group;
use fdp_base::Event;
use fdp_flash::Flash;

/// What a drive tells of itself outside of its log pages.
impl<F: Flash> Group<F> {
    /// Whether placement is enabled, and the index of its configuration.
    pub fn fdp(&self) -> (bool, u8)
        ensures enabled { result.0 ≡ (state_in self.now.book).enabled }
        ensures index { result.1 ≡ (state_in self.now.book).index }
    {
        self.book.view().setting()
    }

    /// Who specified a handle: 0 nobody, since no namespace uses it; 1 a host; 2 the controller. None exactly where there is no handle
    /// of this number. It looks at the list of each namespace.
    pub fn usage(&self, ruh: u8) -> Option<u8>
        ensures { result ≡ usage_told self.now.book.config (state_in self.now.book) ruh }
    {
        self.book.view().usage(ruh)
    }

    /// An event that is kept, of hosts or of the controller, the oldest with index 0. None exactly behind the last.
    pub fn event(&self, host: bool, index: u32) -> Option<Event>
        ensures { result ≡ slice_get (if host then (point_in self.now.book).host_events else (point_in self.now.book).controller_events) index }
    {
        self.book.view().event(host, index)
    }
}
