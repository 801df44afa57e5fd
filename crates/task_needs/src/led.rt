// Nodes that are led on.
ghost use Rattle.std.specs.Prelude.{◌≡◌, [], Some, option_map};

use object_values::{Message, Node, Seq};
use std::alloc::Global;
use std::marker::Model;

/// Where a node is led to: the node, or the message that there is none.
pub struct Led {
    pub node: Option<Node>,
    pub missing: Seq<Message>,
}

impl Drop for Led {
    fn drop(self) {
        let Led { node, missing } = self;
        drop(node);
        drop(missing);
    }
}

impl Model for Led {
    ghost use Rattle.meaning_tasks.specs.Tasks.{Led as LedPart};

    ghost Value = { LedPart };

    ghost view = { λ l. record { node = l.node; missing = l.missing } };
}

impl Led {
    /// To this node.
    pub fn to(alloc: Global, node: Node) -> Self
        ensures { result ≡ record { node = Some node; missing = [] } }
    {
        Led {
            node: Some(node),
            missing: Seq::new(alloc),
        }
    }

    pub fn node(&self) -> Option<&Node>
        ensures { option_map (λ node. node.now) result ≡ self.now.node }
    {
        self.node.as_ref()
    }

    pub fn missing(&self) -> &[Message]
        ensures { result.now ≡ self.now.missing }
    {
        self.missing.as_slice()
    }

    /// The node and the message, without memory.
    pub fn into_parts(self) -> (Option<Node>, Seq<Message>)
        ensures node { result.0 ≡ self.node }
        ensures missing { result.1 ≡ self.missing }
    {
        let Led { node, missing } = self;
        (node, missing)
    }
}
