ghost use Rattle.std.specs.Prelude.{◌≡◌, ℕ, List};
ghost use Rattle.fdp_layouts.specs.Frame.{Part, packed, PartsFit, ReadsParts};

/// A type that stands in one byte of a layout.
pub trait Coded {
    /// The bits of the byte, from bit 0 up.
    ghost parts: { List Part };

    /// What the bits hold.
    ghost numbers: { Self → List ℕ };

    fn code(&self) -> u8
        ensures code { result ≡ packed parts (numbers self.now) }
        ensures fits { PartsFit parts (numbers self.now) };

    /// What a byte stands for, or nothing where it has a bit or a value that is not named.
    fn from_code(code: u8) -> Option<Self>
        ensures { ReadsParts parts numbers code result };
}
