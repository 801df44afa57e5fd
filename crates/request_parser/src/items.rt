// The items of an expression: its parameters and its steps.
ghost use Rattle.std.specs.Prelude.{◌≡◌, ◌≢◌, ◌∷◌, [], Some, IfOk, IfErr, OnOk};
ghost use Rattle.request_parser.specs.Runs.{next};
ghost use Rattle.request_parser.specs.Reads.{AreItems, AreItemsBehind, HaltsIn, TakesValue, ReadsItem, ReadsItems};
ghost use Rattle.request_parser.specs.Found.{PutsItem, IsEmpty};

use crate::bytes::{Class, Wanted};
use crate::cursor::{Cursor, Stop};
use crate::kept::keep;
use object_values::{Bytes, ExprStep, Expression, Memory, ParamValue, Seq, when_done};
use std::alloc::Global;

/// One item.
#[derive(Drop)]
pub(crate) enum Item {
    Param(ParamValue),
    Step(ExprStep),
}

/// The items that were read, the parameters as an expression keeps them.
pub(crate) struct Found {
    pub(crate) params: Vec<ParamValue>,
    pub(crate) steps: Seq<ExprStep>,
}

impl Drop for Found {
    fn drop(self) {
        let Found { params, steps } = self;
        drop(params);
        drop(steps);
    }
}

impl Found {
    /// The expression with these items.
    pub(crate) fn into_expression(self, source: Bytes) -> Expression
        ensures source { result.source ≡ source }
        ensures params { result.params ≡ self.params.items }
        ensures steps { result.steps ≡ self.steps }
    {
        let Found { params, steps } = self;
        Expression {
            source,
            params: Seq::from_vec(params),
            steps,
        }
    }

    fn put(&mut self, item: Item) -> Result<(), Memory>
        ensures { OnOk result (PutsItem item self.old self.new) }
    {
        match item {
            Item::Param(param) => keep(&mut self.params, param),
            Item::Step(step) => self.steps.push(step),
        }
    }
}

impl<'t> Cursor<'t> {
    /// All items up to the end.
    pub(crate) fn items(&mut self, alloc: Global) -> Result<Found, Stop>
        ensures ok { IfOk result (λ found. ReadsItems self.old [] found.params.items found.steps) }
        ensures err { IfErr result (HaltsIn AreItems self.old self.new) }
    {
        let mut found = Found {
            params: Vec::new(alloc),
            steps: Seq::new(alloc),
        };
        let done = self.read_items(alloc, &mut found);
        when_done(done, found)
    }

    fn read_items(&mut self, alloc: Global, found: &mut Found) -> Result<(), Stop>
        requires { IsEmpty found.old }
        ensures ok { OnOk result (ReadsItems self.old [] found.new.params.items found.new.steps) }
        ensures err { IfErr result (HaltsIn AreItems self.old self.new) }
    {
        self.run(Class::Space);
        'items: while !self.is_at_end() {
            let item = self.item(alloc)?;
            found.put(item)?;
            self.run(Class::Space);
        }
        Ok(())
    }

    // The item that comes next.
    fn item(&mut self, alloc: Global) -> Result<Item, Stop>
        requires no_space { next self.old ≢ Some 32 }
        requires more { self.old ≢ [] }
        ensures ok { IfOk result (λ item. ReadsItem item self.old self.new) }
        ensures err { IfErr result (HaltsIn AreItems self.old self.new) }
    {
        if self.skip(b'+') {
            return self.param(alloc);
        }
        if self.skip(b':') {
            return self.type_step(alloc);
        }
        if self.skip(b'%') {
            return self.pick(alloc);
        }
        Err(Stop::Unexpected)
    }

    // What stands after `+`.
    fn param(&mut self, alloc: Global) -> Result<Item, Stop>
        ensures ok { IfOk result (λ item. ReadsItem item (43 ∷ self.old) self.new) }
        ensures err { IfErr result (HaltsIn (AreItemsBehind 43) self.old self.new) }
    {
        let param = self.word(alloc, Wanted::Id)?;
        let value = self.value(alloc)?;
        Ok(Item::Param(ParamValue { param, value }))
    }

    // `=` and a value, or nothing, which is the empty value.
    fn value(&mut self, alloc: Global) -> Result<Bytes, Memory>
        ensures { IfOk result (λ value. TakesValue value self.old self.new) }
    {
        if !self.skip(b'=') {
            return Ok(Bytes::new(alloc));
        }
        let value = self.run(Class::Value);
        Bytes::from_slice(alloc, value)
    }

    // What stands after `:`.
    fn type_step(&mut self, alloc: Global) -> Result<Item, Stop>
        ensures ok { IfOk result (λ item. ReadsItem item (58 ∷ self.old) self.new) }
        ensures err { IfErr result (HaltsIn (AreItemsBehind 58) self.old self.new) }
    {
        let id = self.word(alloc, Wanted::Id)?;
        Ok(Item::Step(ExprStep::To(id)))
    }

    // What stands after `%`.
    fn pick(&mut self, alloc: Global) -> Result<Item, Stop>
        ensures ok { IfOk result (λ item. ReadsItem item (37 ∷ self.old) self.new) }
        ensures err { IfErr result (HaltsIn (AreItemsBehind 37) self.old self.new) }
    {
        let key = self.word(alloc, Wanted::Key)?;
        Ok(Item::Step(ExprStep::Pick(key)))
    }
}
