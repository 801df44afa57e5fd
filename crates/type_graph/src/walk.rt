// Walks from types to their supertypes.
ghost use Rattle.std.specs.Prelude.{◌≡◌, OnOk, IfOk, length};
ghost use Rattle.type_graph.specs.Walks.{AreBelow, AreAllBelow, Marks, IsRowReached, walk_view};

use object_values::{Memory, Seq};
use std::alloc::Global;

/// The types that a walk has come to, and those among them whose supertypes it has yet to look at.
struct Walk {
    marked: Vec<bool>,
    todo: Vec<usize>,
}

impl Drop for Walk {
    fn drop(self) {
        let Walk { marked, todo } = self;
        drop(marked);
        drop(todo);
    }
}

impl Walk {
    /// Comes to these types.
    fn mark_all(&mut self, numbers: &[usize]) -> Result<(), Memory>
        requires { AreBelow (length self.old.marked.items) numbers.now }
        ensures { OnOk result (Marks (walk_view self.old) numbers.now (walk_view self.new)) }
    {
        for number in numbers {
            if !self.marked[*number] {
                self.marked[*number] = true;
                self.todo.push(*number)?;
            }
        }
        Ok(())
    }

    // Which types it has come to.
    fn into_row(self) -> Seq<bool>
        ensures { result ≡ self.marked.items }
    {
        let Walk { marked, todo } = self;
        drop(todo);
        Seq::from_vec(marked)
    }
}

/// Which types are reached from a start by supertypes, none, one or more. Each is looked at once.
pub(crate) fn reached(
    alloc: Global,
    supers: &[Seq<usize>],
    starts: &[usize],
) -> Result<Seq<bool>, Memory>
    requires starts { AreBelow (length supers.now) starts.now }
    requires supers { AreAllBelow supers.now }
    ensures { IfOk result (IsRowReached supers.now starts.now) }
{
    let mut walk = Walk {
        marked: vec![in alloc; false; supers.len()]?,
        todo: Vec::new(alloc),
    };
    walk.mark_all(starts)?;
    while let Some(number) = walk.todo.pop() {
        walk.mark_all(supers[number].as_slice())?;
    }
    Ok(walk.into_row())
}
