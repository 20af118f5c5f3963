//! One table of a layout, as `name: kind at OFFSET` a field, serves both directions. For the table
//! `Cqe[16] { dw0: u32 at DW0, status: (StatusField: u16) at STATUS }` they expand to
//!
//! ```text
//! let mut frame = [0; 16];
//! put_u32(&mut frame, DW0, self.dw0);
//! put_u16(&mut frame, STATUS, self.status.code());
//! frame
//! ```
//!
//! and
//!
//! ```text
//! let fields = [Span { at: DW0, len: 4 }, Span { at: STATUS, len: 2 }];
//! if let Some(at) = first_reserved(bytes, &fields) {
//!     return Err(BadFrame::Reserved { at });
//! }
//! let dw0 = read_u32(bytes, DW0);
//! let status = match StatusField::from_code(read_u16(bytes, STATUS)) {
//!     Some(field) => field,
//!     None => return Err(BadFrame::Range { at: STATUS }),
//! };
//! Ok(Cqe { dw0, status })
//! ```
//!
//! A kind is a number, `(Type: number)` for a type with codes, `[length]` for bytes that mean nothing here, or
//! `zero` for a byte that the struct leaves out.

macro_rules! encode {
    ($value:ident, $name:ident[$len:literal] { $($field:ident: $kind:tt at $at:ident),* $(,)? }) => {{
        let mut frame = [0; $len];
        $(put!(frame, $at, $value.$field, $kind);)*
        frame
    }};
}

macro_rules! decode {
    ($bytes:ident, $name:ident[$len:literal] { $($field:ident: $kind:tt at $at:ident),* $(,)? }) => {{
        let fields = [$(Span { at: $at, len: len!($kind) }),*];
        if let Some(at) = first_reserved($bytes, &fields) {
            return Err(BadFrame::Reserved { at });
        }
        $(let $field = take!($bytes, $at, $kind);)*
        Ok(made!($name {} $($field: $kind,)*))
    }};
}

macro_rules! put {
    ($frame:ident, $at:ident, $value:expr, u8) => { put_u8(&mut $frame, $at, $value) };
    ($frame:ident, $at:ident, $value:expr, u16) => { put_u16(&mut $frame, $at, $value) };
    ($frame:ident, $at:ident, $value:expr, u32) => { put_u32(&mut $frame, $at, $value) };
    ($frame:ident, $at:ident, $value:expr, u64) => { put_u64(&mut $frame, $at, $value) };
    ($frame:ident, $at:ident, $value:expr, u128) => { put_u128(&mut $frame, $at, $value) };
    ($frame:ident, $at:ident, $value:expr, zero) => { put_u8(&mut $frame, $at, 0) };
    ($frame:ident, $at:ident, $value:expr, [$len:literal]) => { put_bytes(&mut $frame, $at, &$value) };
    ($frame:ident, $at:ident, $value:expr, ($type:ident: $number:tt)) => { put!($frame, $at, $value.code(), $number) };
}

macro_rules! take {
    ($bytes:ident, $at:ident, u8) => { read_u8($bytes, $at) };
    ($bytes:ident, $at:ident, u16) => { read_u16($bytes, $at) };
    ($bytes:ident, $at:ident, u32) => { read_u32($bytes, $at) };
    ($bytes:ident, $at:ident, u64) => { read_u64($bytes, $at) };
    ($bytes:ident, $at:ident, u128) => { read_u128($bytes, $at) };
    ($bytes:ident, $at:ident, zero) => {
        if read_u8($bytes, $at) != 0 {
            return Err(BadFrame::Range { at: $at });
        }
    };
    ($bytes:ident, $at:ident, [$len:literal]) => { read_bytes::<$len>($bytes, $at) };
    ($bytes:ident, $at:ident, ($type:ident: $number:tt)) => {
        match $type::from_code(take!($bytes, $at, $number)) {
            Some(field) => field,
            None => return Err(BadFrame::Range { at: $at }),
        }
    };
}

macro_rules! len {
    (u8) => { 1 };
    (u16) => { 2 };
    (u32) => { 4 };
    (u64) => { 8 };
    (u128) => { 16 };
    (zero) => { 1 };
    ([$len:literal]) => { $len };
    (($type:ident: $number:tt)) => { len!($number) };
}

macro_rules! made {
    ($name:ident { $($done:ident),* }) => { $name { $($done),* } };
    ($name:ident { $($done:ident),* } $field:ident: zero, $($rest:tt)*) => {
        made!($name { $($done),* } $($rest)*)
    };
    ($name:ident { $($done:ident),* } $field:ident: $kind:tt, $($rest:tt)*) => {
        made!($name { $($done,)* $field } $($rest)*)
    };
}

pub(crate) use decode;
pub(crate) use encode;
pub(crate) use len;
pub(crate) use made;
pub(crate) use put;
pub(crate) use take;
