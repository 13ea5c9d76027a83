//! A string whose copies share memory.
ghost use Rattle.std.specs.Prelude.{◌≡◌, string_bytes, IfOk};
ghost use Rattle.std.specs.Arc.{arc_value};

use crate::error::OutOfMemory;
use crate::text::Text;
use std::alloc::Global;
use std::marker::Model;
use std::sync::Arc;

/// A text that is never changed. Contracts see it as its bytes in UTF-8. Copies share memory.
#[derive(Drop)]
pub struct SharedText {
    text: Arc<Text>,
}

impl Model for SharedText {
    ghost use Rattle.std.specs.Prelude.{List as Items, ℕ};
    ghost use Rattle.std.specs.Arc.{arc_value};

    ghost Value = { Items ℕ };

    ghost view = { λ s. arc_value s.text };
}

impl SharedText {
    /// The text of a string. `OutOfMemory` where memory to share it was refused.
    pub fn from_string(alloc: Global, string: String) -> Result<SharedText, OutOfMemory>
        ensures { IfOk result (λ shared. shared ≡ string_bytes string) }
    {
        let text = Arc::new(alloc, Text::from_string(string))?;
        Ok(SharedText { text })
    }

    /// The text itself.
    pub fn as_str(&self) -> &str
        ensures { result.now ≡ self.now }
    {
        self.text.as_str()
    }

    /// The same text. They share memory. Want of memory is the only error.
    pub fn copied(&self) -> Result<SharedText, OutOfMemory>
        ensures { IfOk result (λ copy. copy ≡ self.now) }
    {
        let text = Arc::try_clone(&self.text)?;
        Ok(SharedText { text })
    }
}
