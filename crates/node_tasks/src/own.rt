// What a node itself gives.
ghost use Rattle.std.specs.Prelude.{◌≡◌, [], Some};
ghost use Rattle.meaning_tasks.specs.Tasks.{fine, aborted, fine_unless};

use object_values::{Message, Seq, Status, Value};
use std::alloc::Global;
use std::marker::Model;

/// What a node gives beside its needs: its value, its own status and its own messages.
pub(crate) struct Own {
    value: Option<Value>,
    status: Status,
    messages: Seq<Message>,
}

impl Drop for Own {
    fn drop(self) {
        let Own {
            value,
            status: _,
            messages,
        } = self;
        drop(value);
        drop(messages);
    }
}

impl Model for Own {
    ghost use Rattle.meaning_tasks.specs.Tasks.{Own as OwnPart};

    ghost Value = { OwnPart };

    ghost view = { λ o. record { value = o.value; status = o.status; messages = o.messages } };
}

impl Own {
    /// A value at `Ok`. It may be missing there, where what it is taken from has none.
    pub(crate) fn taken(alloc: Global, value: Option<Value>) -> Self
        ensures { result ≡ record { value = value; status = Status.Ok; messages = [] } }
    {
        Own {
            value,
            status: Status::Ok,
            messages: Seq::new(alloc),
        }
    }

    /// A value with its status and messages.
    pub(crate) fn valued(value: Value, status: Status, messages: Seq<Message>) -> Self
        ensures { result ≡ record { value = Some value; status = status; messages = messages } }
    {
        Own {
            value: Some(value),
            status,
            messages,
        }
    }

    pub(crate) fn fine(alloc: Global, value: Value) -> Self
        ensures { result ≡ fine value }
    {
        Own::valued(value, Status::Ok, Seq::new(alloc))
    }

    pub(crate) fn aborted(messages: Seq<Message>) -> Self
        ensures { result ≡ aborted messages }
    {
        Own {
            value: None,
            status: Status::Abort,
            messages,
        }
    }

    /// The value, unless there are messages.
    pub(crate) fn fine_unless(value: Value, messages: Seq<Message>) -> Self
        ensures { result ≡ fine_unless value messages }
    {
        if messages.is_empty() {
            Own::valued(value, Status::Ok, messages)
        } else {
            Own::aborted(messages)
        }
    }

    pub(crate) fn status(&self) -> Status
        ensures { result ≡ self.now.status }
    {
        self.status
    }

    pub(crate) fn messages(&self) -> &[Message]
        ensures { result.now ≡ self.now.messages }
    {
        self.messages.as_slice()
    }

    /// The value, the status and the messages, without memory.
    pub(crate) fn into_parts(self) -> (Option<Value>, Status, Seq<Message>)
        ensures value { result.0 ≡ self.value }
        ensures status { result.1 ≡ self.status }
        ensures messages { result.2 ≡ self.messages }
    {
        let Own {
            value,
            status,
            messages,
        } = self;
        (value, status, messages)
    }
}
