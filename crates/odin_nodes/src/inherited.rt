// The messages that an object inherits: those of its needs in order and then its own, each once, up
// to a limit.
ghost use Rattle.std.specs.Prelude.{◌≡◌, [], ◌∷◌, flat_map, IfOk, OnOk};
ghost use Rattle.meaning_tasks.specs.Values.{inherit};
ghost use Rattle.odin_nodes.specs.Inheriting.{Inherits};

use indexmap::IndexSet;
use object_values::{Copied, MESSAGE_LIMIT, Memory, Message, Seq, SharedSeq, View};
use std::alloc::Global;
use std::marker::Model;

/// Messages in the order in which they came, each once, and no more than 1,000.
#[derive(Drop)]
pub struct Inherited {
    messages: IndexSet<Message>,
}

impl Model for Inherited {
    ghost use Rattle.std.specs.Prelude.{List};
    ghost use Rattle.object_values.specs.declared.messages.Message.{Message};
    ghost use Rattle.odin_nodes.specs.Inheriting.{AreFew};

    ghost Value = { List Message };

    ghost view = { λ i. i.messages.keys };

    ghost invariant = { λ i. AreFew i.messages.keys };
}

impl Inherited {
    pub fn new(alloc: Global) -> Self
        ensures { result ≡ [] }
    {
        Inherited {
            messages: IndexSet::new(alloc),
        }
    }

    // They are all different, and no more than may be.
    fn all_stay(&self)
        ensures { inherit self.now [] ≡ self.now }
    {
        let _ = &self.messages;
    }

    // One message, unless it is there or there are as many as may be.
    fn push(&mut self, alloc: Global, message: &Message) -> Result<(), Memory>
        ensures { OnOk result (Inherits self.old (message.now ∷ []) self.new) }
    {
        if self.messages.len() >= MESSAGE_LIMIT {
            return Ok(());
        }
        self.messages.insert(message.copy(alloc)?)?;
        Ok(())
    }

    /// Adds messages after those that are there. After want of memory some of them may be there.
    pub fn add(&mut self, alloc: Global, messages: &[Message]) -> Result<(), Memory>
        ensures ok { OnOk result (self.new ≡ inherit self.old messages.now) }
        ensures more { OnOk result (Inherits self.old messages.now self.new) }
    {
        for message in messages {
            self.push(alloc, message)?;
        }
        self.all_stay();
        Ok(())
    }

    /// The messages.
    pub fn into_messages(self, alloc: Global) -> Result<SharedSeq<Message>, Memory>
        ensures { IfOk result (λ messages. messages ≡ self) }
    {
        let messages = self.messages.into_iter().collect(alloc)?;
        SharedSeq::of(Seq::from_vec(messages))
    }
}

/// The messages of the needs in order and then the own ones, each once, and no more than the first
/// 1,000.
pub fn inherit(alloc: Global, needs: &[View], own: &[Message]) -> Result<SharedSeq<Message>, Memory>
    ensures { let taken = flat_map (λ view. view.messages) needs.now in
        IfOk result (λ messages. messages ≡ inherit taken own.now) }
{
    let mut messages = Inherited::new(alloc);
    for need in needs {
        messages.add(alloc, need.messages.as_slice())?;
    }
    messages.add(alloc, own)?;
    messages.into_messages(alloc)
}
