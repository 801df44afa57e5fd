// Lists of messages, each held once.
ghost use Rattle.std.specs.Prelude.{◌≡◌, [], IfOk};

use indexmap::IndexSet;
use object_values::{Memory, Message, SharedSeq};
use std::alloc::Global;

/// The lists of messages of results. Many nodes show the same ones, as those that hand on what one
/// need shows, or that differ in a parameter which their tool doesn't use. A list is looked up by its
/// hash.
pub(crate) struct MessageLists {
    lists: IndexSet<SharedSeq<Message>>,
}

impl Drop for MessageLists {
    fn drop(self) {
        let MessageLists { lists } = self;
        drop(lists);
    }
}

impl MessageLists {
    pub(crate) fn new(alloc: Global) -> Self
        ensures { result.lists.keys ≡ [] }
    {
        MessageLists {
            lists: IndexSet::new(alloc),
        }
    }

    /// The same list, which shares its items with an equal one that was shared before.
    pub(crate) fn share(
        &mut self,
        messages: &SharedSeq<Message>,
    ) -> Result<SharedSeq<Message>, Memory>
        ensures { IfOk result (λ shared. shared ≡ messages.now) }
    {
        if messages.is_empty() {
            return messages.share();
        }
        if let Some(held) = self.lists.get(messages) {
            return held.share();
        }
        self.lists.insert(messages.share()?)?;
        messages.share()
    }
}
