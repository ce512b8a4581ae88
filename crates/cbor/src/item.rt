//! An item of a message, where it lies, and where a message breaks a rule.

/// What an item says; strings are parts of the message.
#[derive(Clone, Copy, Debug)]
pub enum Item<'a> {
    Number(u64),
    /// The number -1 - n.
    Negative(u64),
    Bytes(&'a [u8]),
    Text(&'a [u8]),
    Array(u64),
    /// The number of pairs.
    Map(u64),
    False,
    True,
    Null,
}

/// An item with the offsets of its first byte and of the first byte behind its head and string.
#[derive(Clone, Copy, Debug)]
pub struct Part<'a> {
    pub item: Item<'a>,
    pub place: usize,
    pub end: usize,
}

/// The offset of the first item that breaks a rule.
#[derive(Clone, Copy, Debug, PartialEq, Eq)]
pub struct Fault {
    pub place: usize,
}
