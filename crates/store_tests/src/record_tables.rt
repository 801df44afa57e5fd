// Records of nodes in memory, as they are noted, replaced, renewed and forgotten.
use kept_records::RecordTable;
use object_values::{Bytes, Memory, Node, NodeRecord, Renewed, Seq, SharedSeq, ShortSeq, Status};
use std::alloc::Global;

#[derive(Clone, Copy)]
enum Change {
    /// The record of a source has this value.
    Put(&'static [u8], u64),
    /// The record of a source is renewed at an epoch, if it has one.
    Renew(&'static [u8], u64),
    Forget,
}

// The changes, and each record then: its source, its value and its epoch.
type Row = (
    &'static [Change],
    &'static [(&'static [u8], u64, Option<u64>)],
);

const ROWS: &[Row] = &[
    (&[], &[]),
    (&[Change::Renew(b"a", 7)], &[]),
    (
        &[Change::Put(b"a", 1), Change::Put(b"b", 2)],
        &[(b"a", 1, None), (b"b", 2, None)],
    ),
    // a later record stands in the place of the first
    (
        &[
            Change::Put(b"a", 1),
            Change::Put(b"b", 2),
            Change::Put(b"a", 3),
        ],
        &[(b"a", 3, None), (b"b", 2, None)],
    ),
    // one record is renewed, and again
    (
        &[
            Change::Put(b"a", 1),
            Change::Put(b"b", 2),
            Change::Renew(b"b", 7),
        ],
        &[(b"a", 1, None), (b"b", 2, Some(7))],
    ),
    (
        &[
            Change::Put(b"a", 1),
            Change::Renew(b"a", 7),
            Change::Renew(b"a", 8),
        ],
        &[(b"a", 1, Some(8))],
    ),
    // a record that is put anew has what it comes with
    (
        &[
            Change::Put(b"a", 1),
            Change::Renew(b"a", 7),
            Change::Put(b"a", 1),
        ],
        &[(b"a", 1, None)],
    ),
    (&[Change::Put(b"a", 1), Change::Forget], &[]),
    (
        &[
            Change::Put(b"a", 1),
            Change::Forget,
            Change::Put(b"b", 2),
            Change::Put(b"a", 3),
        ],
        &[(b"b", 2, None), (b"a", 3, None)],
    ),
];

fn source(alloc: Global, name: &[u8]) -> Result<Node, Memory> {
    Ok(Node {
        source: Bytes::from_slice(alloc, name)?,
        params: Seq::new(alloc),
        steps: ShortSeq::new(alloc),
    })
}

fn present(height: u32) -> Renewed {
    Renewed {
        status: Status::Ok,
        messages: SharedSeq::new(),
        height,
        tight: None,
    }
}

fn record(alloc: Global, name: &[u8], value: u64) -> Result<NodeRecord, Memory> {
    Ok(NodeRecord {
        node: source(alloc, name)?,
        deps: Seq::new(alloc),
        value: Some(value),
        own_status: Status::Ok,
        own_messages: SharedSeq::new(),
        present: present(1),
        checked: None,
    })
}

fn apply(alloc: Global, table: &mut RecordTable, step: Change) -> Result<(), Memory> {
    match step {
        Change::Put(name, value) => {
            table.reserve(1)?;
            table.put(record(alloc, name, value)?);
        }
        Change::Renew(name, epoch) => {
            let node = source(alloc, name)?;
            if table.get(&node).is_some() {
                table.renew(&node, present(2), epoch);
            }
        }
        Change::Forget => table.forget(),
    }
    Ok(())
}

fn is_record(kept: Option<&NodeRecord>, name: &[u8], value: u64, epoch: Option<u64>) -> bool {
    match kept {
        Some(kept) => {
            kept.node.source.as_slice() == name
                && kept.value == Some(value)
                && kept.checked == epoch
                && (kept.present.height == 2) == epoch.is_some()
        }
        None => false,
    }
}

// Whether the records stand in this order, and each is found by its node.
fn stand(
    alloc: Global,
    table: &RecordTable,
    expected: &[(&'static [u8], u64, Option<u64>)],
) -> Result<bool, Memory> {
    for (place, (name, value, epoch)) in expected.iter().enumerate() {
        let node = source(alloc, name)?;
        if !is_record(table.at(place), name, *value, *epoch)
            || !is_record(table.get(&node), name, *value, *epoch)
        {
            return Ok(false);
        }
    }
    Ok(table.len() == expected.len() && table.get(&source(alloc, b"c")?).is_none())
}

fn holds(alloc: Global, row: &Row) -> Result<bool, Memory> {
    let (changes, expected) = *row;
    let mut table = RecordTable::new(alloc);
    for step in changes {
        apply(alloc, &mut table, *step)?;
    }
    stand(alloc, &table, expected)
}

#[test]
fn records_stand_as_they_were_noted(rt: HostRuntime) {
    for (row, changes) in ROWS.iter().enumerate() {
        assert!(rt; holds(rt.alloc(), changes) == Ok(true), "{row}");
    }
}
