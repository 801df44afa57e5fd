// A session of a load between two steps.
ghost use Rattle.std.specs.Prelude.{◌≡◌, ◌≤◌, ◌∷◌, [], length, IfOk, IfErr, OnOk};
ghost use Rattle.meaning_texts.specs.Limits.{body_limit};

use crate::asked::{Asked, shown_length};
use crate::disk::LoadDisk;
use crate::graph::{graph_text, read_text};
use crate::texts::ASKED;
use meaning_records::laws::stands_for_one;
use object_values::{Bytes, Seq, Text};
use odin_answers::answer_ask;
use odin_bytes::{Name, NameFault};
use odin_engine::{Engine, StoreFault};
use odin_memory::TableTools;
use std::alloc::Global;

/// An engine with its disk and its tools.
pub(crate) struct Session {
    engine: Engine,
    disk: LoadDisk,
    tools: TableTools,
}

impl Drop for Session {
    fn drop(self) {
        let Session {
            engine,
            disk,
            tools,
        } = self;
        drop(engine);
        drop(disk);
        drop(tools);
    }
}

impl Session {
    ghost use Rattle.load_session.specs.Session.{puts, asks};
    ghost use Rattle.load_session.specs.Loads.{IsOpeningFault};
    ghost use Rattle.load_session.specs.Moments.{SessionIsNew, MayServeSteps, IsAtRest, HasServed, HasAsked, LoadStopsFor};

    /// Opens the store over an empty disk, and tools that did nothing yet.
    pub(crate) fn open(alloc: Global) -> Result<Session, StoreFault>
        ensures ok { IfOk result SessionIsNew }
        ensures err { IfErr result IsOpeningFault }
    {
        stands_for_one();
        let graph = read_text(alloc)?;
        let mut disk = LoadDisk::new(alloc)?;
        let opened = Engine::open(alloc, &mut disk, graph, graph_text(), 1);
        disk.fails_past_room();
        let engine = opened?;
        Ok(Session {
            engine,
            disk,
            tools: TableTools::toy(alloc, Seq::new(alloc)),
        })
    }

    /// Gives a source a text.
    pub(crate) fn put(&mut self, alloc: Global, name: &[u8], text: Bytes) -> Result<(), StoreFault>
        requires may { MayServeSteps 1 self.old }
        requires short { length text ≤ body_limit }
        ensures ok { OnOk result (HasServed self.old (puts name.now text ∷ []) [] self.new) }
        ensures err { IfErr result (LoadStopsFor self.old (puts name.now text ∷ [])) }
    {
        let name = read_name(alloc, name)?;
        let text = Text::of(text)?;
        let put = self.engine.put(alloc, &mut self.disk, &name, &text);
        self.disk.fails_past_room();
        let _ = put?;
        Ok(())
    }

    /// Asks for the program.
    pub(crate) fn ask(&mut self, alloc: Global) -> Result<Asked, StoreFault>
        requires { IsAtRest self.old }
        ensures ok { IfOk result (HasAsked self.old (asks ∷ []) self.new) }
        ensures err { IfErr result (LoadStopsFor self.old (asks ∷ [])) }
    {
        let before = self.tools.starts();
        let answer = answer_ask(
            alloc,
            &mut self.engine,
            &mut self.disk,
            ASKED,
            &mut self.tools,
        );
        self.disk.fails_past_room();
        let reply = answer?;
        let after = self.tools.starts();
        let kept = self.engine.store().kept().calls();
        Ok(Asked {
            starts: after - before,
            length: shown_length(&reply),
            kept,
        })
    }
}

// The name of a source of a load, which is one: there is no other fault than want of memory.
fn read_name(alloc: Global, text: &[u8]) -> Result<Name, StoreFault>
    ensures ok { IfOk result (λ name. name ≡ text.now) }
    ensures err { IfErr result (λ fault. fault ≡ StoreFault.Memory) }
{
    match Name::read(alloc, text) {
        Ok(name) => Ok(name),
        Err(_) => Err(StoreFault::Memory),
    }
}
