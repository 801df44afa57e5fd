// What a job left.
ghost use Rattle.std.specs.Prelude.{◌≡◌, option_map, IfOk};
ghost use Rattle.meaning_calls.specs.Outcomes as meaning;
ghost use Rattle.tool_calls.specs.Left.{HoldsFirst};

use object_values::{Memory, Raw, Text};
use std::alloc::Global;
use std::collections::HashMap;

/// What a job left, with the bodies of its files by their names. Of several files of one name the
/// first counts.
#[derive(Drop)]
pub(crate) struct Left<'a> {
    pub(crate) raw: &'a Raw,
    bodies: HashMap<&'a [u8], &'a Text>,
    ghost firsts: { HoldsFirst bodies raw.now.files },
}

impl<'a> Left<'a> {
    pub(crate) fn new(alloc: Global, raw: &'a Raw) -> Result<Self, Memory>
        ensures { IfOk result (λ left. left.raw.now ≡ raw.now) }
    {
        let files = raw.files.as_slice();
        let mut bodies = HashMap::new(alloc);
        for place in (0..files.len()).rev() {
            let file = &files[place];
            bodies.insert(file.name.as_slice(), &file.body)?;
        }
        Ok(Left { raw, bodies })
    }

    /// The body of the first file of that name.
    pub(crate) fn body(&self, name: &[u8]) -> Option<&Text>
        ensures { option_map (λ body. body.now) result ≡
            meaning.file_in name.now self.now.raw.now.files }
    {
        self.bodies.get(&name).copied()
    }
}
