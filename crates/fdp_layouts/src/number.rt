//! Numbers and bytes at an offset of a frame.

ghost use Rattle.std.specs.Prelude.{◌≡◌, ℕ, ◌+◌, ◌^◌, ◌<◌, ◌≤◌, length, replicate};
ghost use Rattle.byteorder.specs.Endian.{little_bytes};
ghost use Rattle.fdp_layouts.specs.Frame.{any, packed, unpacked, number_at, placed, PartsFit};

use crate::frame::see_bytes;
use byteorder::{ByteOrder, LittleEndian};

#[tactic(auto, unfolding(crate::specs::Frame::number_at))]
pub fn read_u8(bytes: &[u8], at: usize) -> u8
    requires { at + 1 ≤ length bytes.now }
    ensures { result ≡ number_at at 1 bytes.now }
{
    bytes[at]
}

#[tactic(auto, unfolding(crate::specs::Frame::number_at))]
pub fn read_u16(bytes: &[u8], at: usize) -> u16
    requires { at + 2 ≤ length bytes.now }
    ensures { result ≡ number_at at 2 bytes.now }
{
    LittleEndian::read_u16(&bytes[at..])
}

#[tactic(auto, unfolding(crate::specs::Frame::number_at))]
pub fn read_u32(bytes: &[u8], at: usize) -> u32
    requires { at + 4 ≤ length bytes.now }
    ensures { result ≡ number_at at 4 bytes.now }
{
    LittleEndian::read_u32(&bytes[at..])
}

#[tactic(auto, unfolding(crate::specs::Frame::number_at))]
pub fn read_u64(bytes: &[u8], at: usize) -> u64
    requires { at + 8 ≤ length bytes.now }
    ensures { result ≡ number_at at 8 bytes.now }
{
    LittleEndian::read_u64(&bytes[at..])
}

#[tactic(auto, unfolding(crate::specs::Frame::number_at))]
pub fn read_u128(bytes: &[u8], at: usize) -> u128
    requires { at + 16 ≤ length bytes.now }
    ensures { result ≡ number_at at 16 bytes.now }
{
    LittleEndian::read_u128(&bytes[at..])
}

#[tactic(auto, unfolding(crate::specs::Frame::placed))]
pub fn put_u8(frame: &mut [u8], at: usize, n: u8)
    requires { at + 1 ≤ length frame.old }
    ensures placed { frame.new ≡ placed at (little_bytes 1 n) frame.old }
    ensures fits { n < 2 ^ 8 }
{
    frame[at] = n;
}

#[tactic(auto, unfolding(crate::specs::Frame::placed))]
pub fn put_u16(frame: &mut [u8], at: usize, n: u16)
    requires { at + 2 ≤ length frame.old }
    ensures placed { frame.new ≡ placed at (little_bytes 2 n) frame.old }
    ensures fits { n < 2 ^ 16 }
{
    LittleEndian::write_u16(&mut frame[at..], n);
}

#[tactic(auto, unfolding(crate::specs::Frame::placed))]
pub fn put_u32(frame: &mut [u8], at: usize, n: u32)
    requires { at + 4 ≤ length frame.old }
    ensures placed { frame.new ≡ placed at (little_bytes 4 n) frame.old }
    ensures fits { n < 2 ^ 32 }
{
    LittleEndian::write_u32(&mut frame[at..], n);
}

#[tactic(auto, unfolding(crate::specs::Frame::placed))]
pub fn put_u64(frame: &mut [u8], at: usize, n: u64)
    requires { at + 8 ≤ length frame.old }
    ensures placed { frame.new ≡ placed at (little_bytes 8 n) frame.old }
    ensures fits { n < 2 ^ 64 }
{
    LittleEndian::write_u64(&mut frame[at..], n);
}

#[tactic(auto, unfolding(crate::specs::Frame::placed))]
pub fn put_u128(frame: &mut [u8], at: usize, n: u128)
    requires { at + 16 ≤ length frame.old }
    ensures placed { frame.new ≡ placed at (little_bytes 16 n) frame.old }
    ensures fits { n < 2 ^ 128 }
{
    LittleEndian::write_u128(&mut frame[at..], n);
}

#[tactic(auto, unfolding(crate::specs::Frame::number_at))]
pub fn read_bytes<const LEN: usize>(bytes: &[u8], at: usize) -> [u8; LEN]
    requires { at + LEN ≤ length bytes.now }
    ensures { result ≡ unpacked (replicate LEN (any 8)) (number_at at LEN bytes.now) }
{
    let mut part = [0; LEN];
    part.copy_from_slice(&bytes[at..at + LEN]);
    part
}

#[tactic(auto, unfolding(crate::specs::Frame::placed))]
pub fn put_bytes<const LEN: usize>(frame: &mut [u8], at: usize, part: &[u8; LEN])
    requires { at + LEN ≤ length frame.old }
    ensures placed { frame.new ≡ placed at (little_bytes LEN (packed (replicate LEN (any 8)) part.now)) frame.old }
    ensures fits { PartsFit (replicate LEN (any 8)) part.now }
{
    see_bytes(part);
    frame[at..at + LEN].copy_from_slice(part);
}
