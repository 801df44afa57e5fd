// What is held in memory: texts by number, and the contents that are texts or others.
ghost use Rattle.std.specs.Prelude.{◌≡◌, ◌↔◌, IfOk, IsTrue};
ghost use Rattle.object_values.specs.declared.views.Value.TheVariants.{Simple};
ghost use Rattle.kept_contents.specs.Stocks.{value_of};

use object_values::{Copied, Memory, Text, Value};
use std::alloc::Global;

/// A text with its number in memory.
#[derive(Drop)]
pub struct Shared {
    pub id: u64,
    pub text: Text,
}

/// A content: a text that is held by number, or a list or a compound.
#[derive(Drop)]
pub enum Content {
    Text(Shared),
    Other(Value),
}

impl Content {
    /// The value that it is. It shares the bytes of texts and of parts.
    pub fn value(&self, alloc: Global) -> Result<Value, Memory>
        ensures { IfOk result (λ value. value ≡ value_of self.now) }
    {
        match self {
            Content::Text(shared) => Ok(Value::Simple(shared.text.copy(alloc)?)),
            Content::Other(value) => value.copy(alloc),
        }
    }

    /// Whether it is this value.
    pub fn is(&self, value: &Value) -> bool
        ensures { IsTrue result ↔ (value_of self.now ≡ value.now) }
    {
        match self {
            Content::Text(shared) => is_text(&shared.text, value),
            Content::Other(other) => other == value,
        }
    }
}

fn is_text(text: &Text, value: &Value) -> bool
    ensures { IsTrue result ↔ (Simple text.now ≡ value.now) }
{
    match value {
        Value::Simple(other) => text == other,
        _ => false,
    }
}
