//! Texts that need no memory of their own while they are short.
ghost use Rattle.std.specs.Prelude.{◌≡◌, IfOk};
ghost use Rattle.ovl_names.specs.Texts.{text_bytes};

use arrayvec::ArrayString;
use std::alloc::{AllocError, Global};
use std::fmt::{self, Write};

/// The most bytes of a text that is in its value; a longer one is allocated.
const SHORT_LIMIT: usize = 24;

/// A text that takes no memory of its own where it is short, as most names of files are.
#[derive(Drop)]
pub(crate) enum Text {
    Short(ArrayString<SHORT_LIMIT>),
    Long(String),
}

impl Text {
    /// The text of these bytes, in its value where it is short; fails only when out of memory.
    pub(crate) fn of(alloc: Global, text: &str) -> Result<Text, AllocError>
        ensures { IfOk result (λ kept. text_bytes kept ≡ text.now) }
    {
        Ok(match ArrayString::from(text) {
            Ok(short) => Text::Short(short),
            Err(_) => Text::Long(String::from_str(alloc, text)?),
        })
    }

    /// A text equal to this one; fails only when out of memory.
    pub(crate) fn copy(&self, alloc: Global) -> Result<Text, AllocError>
        ensures { IfOk result (λ copied. text_bytes copied ≡ text_bytes self.now) }
    {
        Ok(match self {
            Text::Short(short) => Text::Short(*short),
            Text::Long(long) => Text::Long(String::from_str(alloc, long.as_str())?),
        })
    }

    /// The text.
    pub(crate) fn as_str(&self) -> &str
        ensures { result.now ≡ text_bytes self.now }
    {
        match self {
            Text::Short(short) => short.as_str(),
            Text::Long(long) => long.as_str(),
        }
    }
}

impl fmt::Debug for Text {
    fn fmt<W: Write>(&self, f: &mut fmt::Formatter<W>) -> fmt::Result {
        fmt::Debug::fmt(self.as_str(), f)
    }
}
