// Whole runs over a runtime in memory, whose input comes in two pieces.
use super::stored::disk_of;
use object_values::{Memory, Seq};
use odin_fakes::TableTools;
use odin_real::{InputSource, OutputSink};
use odin_shell::run;
use std::alloc::{Allocator, Global};
use std::cell::RefCell;
use std::fmt::Display;
use std::io::{self, BufRead, Chain, Lines, Read};
use std::test::Fail;
use test_support::{CC_ONLY, owned, tree_of};

// A runtime over memory: the input's two pieces, and what was written, of which a write takes at most 100 bytes.
#[derive(Drop)]
struct MemRuntime {
    front: &'static [u8],
    back: &'static [u8],
    taken: RefCell<Vec<u8>>,
}

impl Input for MemRuntime {
    type Reader = Chain<&'static [u8], &'static [u8]>;

    fn read_line<A: Allocator + Clone>(&self, _buf: &mut String<A>) -> io::Result<usize> {
        Ok(0)
    }

    fn lines<A: Allocator>(&self, alloc: A) -> Lines<Self::Reader, A> {
        self.reader().lines(alloc)
    }

    fn reader(&self) -> Self::Reader {
        self.front.chain(self.back)
    }
}

impl Print for MemRuntime {
    fn print<D: Display + Drop>(&self, _value: D) -> io::Result<()> {
        Ok(())
    }

    fn println<D: Display + Drop>(&self, _value: D) -> io::Result<()> {
        Ok(())
    }

    fn write_all(&self, bytes: &[u8]) -> io::Result<()> {
        if let Ok(mut taken) = self.taken.try_borrow_mut() {
            taken.extend_from_slice(bytes)?;
        }
        Ok(())
    }

    fn write_some(&self, bytes: &[u8]) -> io::Result<usize> {
        let count = bytes.len().min(100);
        self.write_all(&bytes[..count])?;
        Ok(count)
    }
}

// The status of a run over the runtime's input and output, with a graph and the toy tools in memory.
fn serve(rt: &MemRuntime, alloc: Global) -> Result<u8, Memory> {
    let words = owned(alloc, &["odin", "g0"])?;
    let mut input = InputSource::new(rt.reader());
    let mut output = OutputSink::new(io::writer(rt));
    let mut tree = tree_of(alloc, &[(b"g0", CC_ONLY)])?;
    let mut disk = disk_of(alloc, b"")?;
    let mut tools = TableTools::toy(alloc, Seq::new(alloc));
    Ok(run(
        alloc,
        words.as_slice(),
        &mut input,
        &mut output,
        &mut tree,
        &mut disk,
        &mut tools,
    ))
}

// The status and what was written of a run with an input in these two pieces.
fn served(
    alloc: Global,
    front: &'static [u8],
    back: &'static [u8],
) -> Result<(u8, Vec<u8>), Memory> {
    let rt = MemRuntime {
        front,
        back,
        taken: RefCell::new(Vec::new(alloc)),
    };
    let status = serve(&rt, alloc)?;
    Ok((status, rt.taken.into_inner()))
}

// Two pieces of an input, the status, and the output.
const ROWS: [(&'static [u8], &'static [u8], u8, &[u8]); 3] = [
    (
        b"put a.c 4\nx=",
        b"1\nask a.c:o\n",
        0,
        b"put a.c 4\nobject ok simple 4\nx=1\n\nmessages 0\n",
    ),
    (
        b"put a.c 4\nx=1\nask a.c\nput ",
        b"b.c 9\nx=",
        1,
        b"put a.c 4\nobject ok simple 4\nx=1\n\nmessages 0\n",
    ),
    (
        b"ask abcdefghijklmnopqrstuvwxyz.abcdefghijklmn",
        b"opqrstuvwxyz",
        0,
        b"object abort none 0\nmessages 1\nabort abcdefghijklmnopqrstuvwxyz.abcdefghijklmnopqrstuvwxyz no source abcdefghijklmnopqrstuvwxyz.abcdefghijklmnopqrstuvwxyz\n",
    ),
];

#[test]
fn serves_a_whole_run(rt: HostRuntime) -> Result<(), Fail> {
    for (front, back, end, want) in ROWS {
        let (status, output) = served(rt.alloc(), front, back)?;
        assert_eq!(rt; status, end);
        assert!(rt; output.as_slice() == want);
    }
    Ok(())
}
