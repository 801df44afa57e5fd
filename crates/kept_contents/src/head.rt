// The heads of calls: all of a call but its inputs.
ghost use Rattle.std.specs.Prelude.{◌≡◌, IfOk};
ghost use Rattle.std.specs.List.{fold};
ghost use Rattle.kept_contents.specs.contracts.head.CallHeadPartialEq.TheImpl.{ghosts as head_eq};
ghost use Rattle.kept_contents.specs.Heads.{call_with, digest_of, fed_of, hash_of, head_of};

use content_store::ShaHasher;
use object_values::{Bytes, Call, CallPart, Copied, Memory, ParamValue, Seq, copy_five};
use std::alloc::Global;
use std::hash::{FoldHasher, Hash, Hasher};

/// The tool of a call with all that it gets but its inputs. The calls of a graph have few heads.
#[derive(PartialEq, Eq)]
pub struct CallHead {
    pub tool: Bytes,
    pub version: Bytes,
    pub words: Seq<Bytes>,
    pub params: Seq<ParamValue>,
    pub outs: Seq<Bytes>,
}

impl Drop for CallHead {
    fn drop(self) {
        let CallHead {
            tool,
            version,
            words,
            params,
            outs,
        } = self;
        drop(tool);
        drop(version);
        drop(words);
        drop(params);
        drop(outs);
    }
}

impl CallHead {
    /// The head of a call.
    pub fn of(alloc: Global, call: &Call) -> Result<Self, Memory>
        ensures { IfOk result (λ head. head ≡ head_of call.now) }
    {
        let copied = copy_five(
            alloc,
            &call.tool,
            &call.version,
            &call.words,
            &call.params,
            &call.outs,
        )?;
        let (tool, version, words, params, outs) = copied;
        Ok(CallHead {
            tool,
            version,
            words,
            params,
            outs,
        })
    }

    /// Whether a call has this head.
    pub(crate) fn is_of(&self, call: &Call) -> bool
        ensures { result ≡ head_eq.eq (head_of call.now) self.now }
    {
        call.tool == self.tool
            && call.version == self.version
            && call.words == self.words
            && call.params == self.params
            && call.outs == self.outs
    }

    /// The call that has this head and these inputs.
    pub fn call(&self, alloc: Global, parts: &Seq<CallPart>) -> Result<Call, Memory>
        ensures { IfOk result (λ call. call ≡ call_with self.now parts.now) }
    {
        let parts = parts.copy(alloc)?;
        let copied = copy_five(
            alloc,
            &self.tool,
            &self.version,
            &self.words,
            &self.params,
            &self.outs,
        )?;
        let (tool, version, words, params, outs) = copied;
        Ok(Call {
            tool,
            version,
            words,
            params,
            parts,
            outs,
        })
    }
}

/// A quick hash of a call's head.
pub(crate) fn hash_head(call: &Call) -> u64
    ensures { result ≡ hash_of (head_of call.now) }
{
    let mut state = FoldHasher::default();
    feed_head(call, &mut state);
    state.finish()
}

/// A digest of a call's head.
pub(crate) fn digest_head(call: &Call) -> [u8; 32]
    ensures { result ≡ digest_of (head_of call.now) }
{
    let mut state = ShaHasher::default();
    feed_head(call, &mut state);
    state.digest()
}

// Feeds all of a call but its inputs.
fn feed_head<H: Hasher>(call: &Call, state: &mut H)
    ensures { state.new ≡ fold H.write state.old (fed_of (head_of call.now)) }
{
    call.tool.hash(state);
    call.version.hash(state);
    call.words.hash(state);
    call.params.hash(state);
    call.outs.hash(state);
}
