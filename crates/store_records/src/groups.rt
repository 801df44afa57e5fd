// Things one after the other, lists and options.
ghost use Rattle.std.specs.Prelude.{◌≡◌, ◌++◌, OnOk};
ghost use Rattle.std.specs.List.{All, flat_map};
ghost use Rattle.meaning_records.specs.Forms.{list_of};

use crate::places::{take_u8, take_u32};
use crate::recorded::Recorded;
use object_values::{Bytes, Copied, Memory, Seq, ShortSeq, Text};
use odin_bytes::{put_u8, put_u32};
use std::alloc::Global;

impl<A: Recorded, B: Recorded> Recorded for (A, B) {
    ghost use Rattle.meaning_records.specs.Forms.{both};
    ghost use Rattle.meaning_records.specs.FormLemmas.{one_both};

    ghost form = { both A.form B.form };

    fn put(&self, out: &mut Bytes) -> Result<(), Memory> {
        self.0.put(out)?;
        self.1.put(out)
    }

    fn take(alloc: Global, from: &Text, at: usize) -> Result<Option<(Self, usize)>, Memory> {
        let Some((first, middle)) = A::take(alloc, from, at)? else {
            return Ok(None);
        };
        let Some((second, end)) = B::take(alloc, from, middle)? else {
            return Ok(None);
        };
        Ok(Some(((first, second), end)))
    }

    ghost one = { one_both A.form B.form A.one B.one };
}

impl<T: Recorded> Recorded for Seq<T> {
    ghost use Rattle.meaning_records.specs.Forms.{list_of};
    ghost use Rattle.meaning_records.specs.FormLemmas.{one_list};

    ghost form = { list_of T.form };

    fn put(&self, out: &mut Bytes) -> Result<(), Memory> {
        put_list(self.as_slice(), out)
    }

    fn take(alloc: Global, from: &Text, at: usize) -> Result<Option<(Self, usize)>, Memory> {
        let Some((count, start)) = take_u32(from, at) else {
            return Ok(None);
        };
        let mut members = Seq::new(alloc);
        let mut place = start;
        for _ in 0..count {
            let Some((member, end)) = T::take(alloc, from, place)? else {
                return Ok(None);
            };
            members.push(member)?;
            place = end;
        }
        Ok(Some((members, place)))
    }

    ghost one = { one_list T.form T.one };
}

impl<T: Recorded + Copied + Default> Recorded for ShortSeq<T> {
    ghost use Rattle.meaning_records.specs.Forms.{list_of};
    ghost use Rattle.meaning_records.specs.FormLemmas.{one_list};

    ghost form = { list_of T.form };

    fn put(&self, out: &mut Bytes) -> Result<(), Memory> {
        put_list(self.as_slice(), out)
    }

    fn take(alloc: Global, from: &Text, at: usize) -> Result<Option<(Self, usize)>, Memory> {
        let Some((members, end)) = Seq::<T>::take(alloc, from, at)? else {
            return Ok(None);
        };
        Ok(Some((ShortSeq::of(alloc, members.as_slice())?, end)))
    }

    ghost one = { one_list T.form T.one };
}

impl<T: Recorded> Recorded for Option<T> {
    ghost use Rattle.meaning_records.specs.Forms.{option_of};
    ghost use Rattle.meaning_records.specs.FormLemmas.{one_option};

    ghost form = { option_of T.form };

    fn put(&self, out: &mut Bytes) -> Result<(), Memory> {
        match self {
            None => put_u8(out, 0),
            Some(member) => {
                put_u8(out, 1)?;
                member.put(out)
            }
        }
    }

    fn take(alloc: Global, from: &Text, at: usize) -> Result<Option<(Self, usize)>, Memory> {
        let Some((kind, start)) = take_u8(from, at) else {
            return Ok(None);
        };
        match kind {
            0 => Ok(Some((None, start))),
            1 => {
                let Some((member, end)) = T::take(alloc, from, start)? else {
                    return Ok(None);
                };
                Ok(Some((Some(member), end)))
            }
            _ => Ok(None),
        }
    }

    ghost one = { one_option T.form T.one };
}

// Adds the number of things, and their records.
fn put_list<T: Recorded>(members: &[T], out: &mut Bytes) -> Result<(), Memory>
    ensures ok { OnOk result (out.new ≡ out.old ++ (list_of T.form).spell members.now) }
    ensures fits { OnOk result ((list_of T.form).fits members.now) }
{
    if members.len() > u32::MAX as usize {
        return Err(Memory);
    }
    put_u32(out, members.len() as u32)?;
    put_members(members, out)
}

/// Adds the records of things, one after the other.
pub fn put_members<T: Recorded>(members: &[T], out: &mut Bytes) -> Result<(), Memory>
    ensures ok { OnOk result (out.new ≡ out.old ++ flat_map T.form.spell members.now) }
    ensures fits { OnOk result (All T.form.fits members.now) }
{
    for member in members {
        member.put(out)?;
    }
    Ok(())
}
