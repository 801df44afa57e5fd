// Records of nodes as their bytes: the worked record of meaning_records/specs/ByteExamples.antt, read and written back, and cut short.
use object_values::{Bytes, Memory, Message, Node, ParamValue, Status, Step, Text};
use std::alloc::Global;
use store_records::{Recorded, StoredDep, StoredRecord};

// The first element of `a.c` by the maker 258, with the parameter `debug` of the value `1`. It has seen the content 3 of `a.c`, and the reached source
// `x.h` absent. Its value is the content 5. Its call has warned, a need has an error, and its height is 4.
const RECORD: &[u8] =
    b"\0\0\0\x03a.c\0\0\0\x01\0\0\0\x05debug\0\0\0\x011\0\0\0\x02\x01\0\0\x01\x02\x02\0\0\0\x011\0\0\0\x02\0\0\0\x03a.c\0\0\0\0\0\0\0\0\x01\0\0\0\x03\0\0\0\x03x.h\0\0\0\0\0\0\0\0\0\0\0\0\x01\x01\0\0\0\x05\x01\0\0\0\x01\0\0\0\x01a\x01\0\0\0\x03own\x02\0\0\0\x02\0\0\0\x01b\x02\0\0\0\x04need\0\0\0\x01a\x01\0\0\0\x03own\0\0\0\x04";

fn is_bytes(bytes: &Bytes, text: &[u8]) -> bool {
    bytes.as_slice() == text
}

fn is_source(node: &Node, name: &[u8]) -> bool {
    is_bytes(&node.source, name) && node.params.is_empty() && node.steps.as_slice().is_empty()
}

fn is_element(node: &Node) -> bool {
    let params = match node.params.as_slice() {
        [ParamValue { param, value }] => is_bytes(param, b"debug") && is_bytes(value, b"1"),
        _ => false,
    };
    let steps = match node.steps.as_slice() {
        [Step::Maker(maker), Step::Pick(key)] => {
            *maker == 258 && key.as_slice() == b"1".as_slice()
        }
        _ => false,
    };
    is_bytes(&node.source, b"a.c") && params && steps
}

fn are_deps(deps: &[StoredDep]) -> bool {
    match deps {
        [present, absent] => {
            is_source(&present.node, b"a.c")
                && present.content == Some(3)
                && is_source(&absent.node, b"x.h")
                && absent.content.is_none()
        }
        _ => false,
    }
}

fn is_message(message: &Message, label: &[u8], level: Status, text: &[u8]) -> bool {
    message.label.as_slice() == label && message.level == level && message.text.as_slice() == text
}

fn is_own(message: &Message) -> bool {
    is_message(message, b"a", Status::Warning, b"own")
}

fn are_present(messages: &[Message]) -> bool {
    match messages {
        [need, own] => is_message(need, b"b", Status::Error, b"need") && is_own(own),
        _ => false,
    }
}

fn is_record(record: &StoredRecord) -> bool {
    let own = match record.own_messages.as_slice() {
        [message] => is_own(message),
        _ => false,
    };
    is_element(&record.node)
        && are_deps(record.deps.as_slice())
        && record.reached == 1
        && record.value == Some(5)
        && record.own_status == Status::Warning
        && own
        && record.status == Status::Error
        && are_present(record.messages.as_slice())
        && record.height == 4
}

fn text_of(alloc: Global, bytes: &[u8]) -> Result<Text, Memory> {
    Text::of(Bytes::from_slice(alloc, bytes)?)
}

// Whether the record is read from its bytes, up to their end, and is written as these bytes.
fn is_read(alloc: Global) -> Result<bool, Memory> {
    let Some((record, end)) = StoredRecord::take(alloc, &text_of(alloc, RECORD)?, 0)? else {
        return Ok(false);
    };
    let mut written = Bytes::new(alloc);
    record.put(&mut written)?;
    Ok(is_record(&record) && end == RECORD.len() && written.as_slice() == RECORD)
}

fn reads_nothing(alloc: Global, bytes: &[u8]) -> Result<bool, Memory> {
    Ok(StoredRecord::take(alloc, &text_of(alloc, bytes)?, 0)?.is_none())
}

#[test]
fn a_record_of_a_node_is_read_and_written(rt: HostRuntime) {
    assert!(rt; is_read(rt.alloc()) == Ok(true));
}

#[test]
fn a_record_of_a_node_that_is_cut_reads_as_nothing(rt: HostRuntime) {
    for end in 0..RECORD.len() {
        assert!(rt;
            reads_nothing(rt.alloc(), &RECORD[..end]) == Ok(true),
            "{end}"
        );
    }
}
