//! A number by itself is one of its type, and so is each of a list.

ghost use Rattle.fdp_prints.specs.Told.{IsOfBits};
ghost use Rattle.fdp_trace.specs.Typed.{HaveBits};

pub(crate) fn is_byte(_n: u8)
    ensures { IsOfBits 8 _n }
{}

pub(crate) fn is_short(_n: u16)
    ensures { IsOfBits 16 _n }
{}

pub(crate) fn is_word(_n: u32)
    ensures { IsOfBits 32 _n }
{}

pub(crate) fn is_long(_n: u64)
    ensures { IsOfBits 64 _n }
{}

/// A list of numbers needs no look at each of them.
pub(crate) fn have_bytes(_bytes: &[u8])
    ensures { HaveBits 8 _bytes.now }
{}

pub(crate) fn have_shorts(_numbers: &[u16])
    ensures { HaveBits 16 _numbers.now }
{}
