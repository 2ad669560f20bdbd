//! Numbers and texts as they are written.

// A number, or the bytes of a text.
#[derive(Clone, Copy)]
pub enum Constant<'a> {
    Number(u32),
    Text(&'a [u8]),
}
