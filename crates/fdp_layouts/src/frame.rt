ghost use Rattle.std.specs.Prelude.{◌≡◌, ◌<◌, ◌^◌, nat_lt, slice_index, ◌↔◌, ℕ, List, Result, Ok, Err, Some, None, IfOk, MatchResult, IsTrue};
ghost use Rattle.fdp_layouts.specs.declared.bad_frame.BadFrame.{BadFrame};
ghost use Rattle.fdp_layouts.specs.Frame.{Field, frame_of, fault_of, numbers_in, Fits, ascend};

use crate::bad_frame::BadFrame;

/// A layout of `N` bytes.
pub trait Frame<const N: usize> {
    /// The fields, by ascending offset.
    ghost fields: { List Field };

    /// What each field holds.
    ghost numbers: { Self → List (List ℕ) };

    fn encode(&self) -> [u8; N]
        ensures frame { result ≡ frame_of N fields (numbers self.now) }
        ensures fits { Fits fields (numbers self.now) };

    /// What the fields hold, or what is wrong with the bytes.
    fn read(bytes: &[u8; N]) -> Result<Self, BadFrame>
        ensures holds { MatchResult result
            (λ v. (fault_of N fields bytes.now ≡ None) × (numbers v ≡ numbers_in fields bytes.now))
            (λ e. fault_of N fields bytes.now ≡ Some e) }
        // A value is known by its numbers.
        ensures known { IfOk result (λ v. (w : Self) → numbers v ≡ numbers w → v ≡ w) };

    /// The fields ascend.
    ghost in_order: { IsTrue (ascend 0 N fields) };

    /// Memory has room for a frame.
    ghost small: { IsTrue (nat_lt N (2 ^ 63)) };

    final fn decode(bytes: &[u8; N]) -> Result<Self, BadFrame>
        ensures ok { IfOk result (λ v. bytes.now ≡ frame_of N fields (numbers v)) }
        ensures only { (v : Self) → Fits fields (numbers v) → bytes.now ≡ frame_of N fields (numbers v) → result ≡ Ok v }
        ensures refused { (e : BadFrame) → (result ≡ Err e) ↔ (fault_of N fields bytes.now ≡ Some e) }
    {
        see_bytes(bytes);
        Self::read(bytes)
    }

    /// What is read of the bytes of a value: that value.
    final fn round_trip(&self) -> Result<Self, BadFrame>
        ensures { result ≡ Ok self.now }
    {
        Self::decode(&self.encode())
    }
}

/// A proof knows of the items of a slice that they are bytes, and of an array of `N` items it does not.
pub(crate) fn see_bytes(bytes: &[u8])
    ensures { (i : ℕ) → slice_index bytes.now i < 256 }
{}
