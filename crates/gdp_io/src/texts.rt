//! A text: bytes that are read or are to be written.

use item_lists::List;

/// A list of bytes, which need not be UTF-8.
pub type Text = List<u8>;
