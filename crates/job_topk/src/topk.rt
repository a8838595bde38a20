//! The job that keeps the members with the highest scores in each group.
ghost use Rattle.std.specs.Prelude.{◌≡◌, ◌≤◌, ◌++◌, ◌↔◌, IsTrue, OnOk, OnErr, SomeIff};
ghost use Rattle.definitions.specs.Limits.{most_members};
ghost use Rattle.definitions.specs.Outside.{GainsPrefix};
ghost use Rattle.job_laws.specs.Forms.{is_topk_record};
ghost use Rattle.job_topk.specs.TopK.{topk_emits, topk_joined, topk_good, score_text, item_text, member_text, topk_text, member_encoded, topk_encoded};
ghost use Rattle.job_topk.specs.Laws.{topk_emits_good, topk_join_laws, topk_joined_comm};

use crate::Members;
use crate::merge::merge_first;
use definitions::{MOST_MEMBERS, MOST_RECORD};
use itoa::Buffer;
use job_laws::{Emit, Job, Key, Meter, Swaps, be32_bytes, tab_at};
use jobs_basic::Bytes;
use record_text::parse_number;
use std::alloc::{AllocError, Global};
use std::marker::{Model, PhantomData};

/// The `k` members with the highest scores in each group; `k` is the setting. A record is the group, a TAB, the score,
/// a TAB and the item; the group is not empty, the score is a number, and the item is the rest, TABs included. Scores
/// fall, and items of one score rise in byte order; repeated members are kept.
#[derive(Drop)]
pub struct TopK<M: Meter> {
    most: u32,
    meter: PhantomData<M>,
}

impl<M: Meter> Model for TopK<M> {
    ghost use Rattle.std.specs.Prelude.{ℕ};

    ghost Value = { ℕ };

    ghost view = { λ t. t.most };
}

impl<M: Meter> TopK<M> {
    /// The job that keeps `k` members; `None` exactly if `k` is not 1 to 1000.
    pub fn new(k: u32) -> Option<TopK<M>>
        ensures { SomeIff result ((1 ≤ k) × (k ≤ most_members)) k }
    {
        if k < 1 || k > MOST_MEMBERS {
            return None;
        }
        Some(TopK {
            most: k,
            meter: PhantomData,
        })
    }
}

// Appends a score between two TABs; out of memory, a prefix of it.
fn put_score(score: u32, out: &mut Vec<u8>) -> Result<(), AllocError>
    ensures ok { OnOk result (out.new.items ≡ out.old.items ++ score_text score) }
    ensures err { OnErr result (GainsPrefix (score_text score) out.old.items out.new.items) }
{
    let mut number = Buffer::new();
    out.push(b'\t')?;
    out.extend_from_slice(number.format(score).as_bytes())?;
    out.push(b'\t')?;
    Ok(())
}

// Appends an item with its LF; out of memory, a prefix of them.
fn put_item(item: &[u8], out: &mut Vec<u8>) -> Result<(), AllocError>
    ensures ok { OnOk result (out.new.items ≡ out.old.items ++ item_text item.now) }
    ensures err { OnErr result (GainsPrefix (item_text item.now) out.old.items out.new.items) }
{
    out.extend_from_slice(item)?;
    out.push(b'\n')?;
    Ok(())
}

// Appends the line of a group with one member; out of memory, a prefix of it.
fn put_member(group: &[u8], member: &(u32, Bytes), out: &mut Vec<u8>) -> Result<(), AllocError>
    ensures ok { OnOk result (out.new.items ≡ out.old.items ++ member_text group.now member.now) }
    ensures err { OnErr result (GainsPrefix (member_text group.now member.now) out.old.items out.new.items) }
{
    out.extend_from_slice(group)?;
    match put_score(member.0, out) {
        Ok(()) => (),
        Err(e) => return Err(e),
    }
    match put_item(member.1.bytes(), out) {
        Ok(()) => Ok(()),
        Err(e) => Err(e),
    }
}

// Appends the lines of a group with its members; out of memory, a prefix of them.
fn put_lines(group: &[u8], members: &[(u32, Bytes)], out: &mut Vec<u8>) -> Result<(), AllocError>
    ensures ok { OnOk result (out.new.items ≡ out.old.items ++ topk_text group.now members.now) }
    ensures err { OnErr result (GainsPrefix (topk_text group.now members.now) out.old.items out.new.items) }
{
    'members: for member in members {
        match put_member(group, member, out) {
            Ok(()) => (),
            Err(e) => return Err(e),
        }
    }
    Ok(())
}

// Whether two members are equal.
fn is_same(a: &(u32, Bytes), b: &(u32, Bytes)) -> bool
    ensures { IsTrue result ↔ (a.now ≡ b.now) }
{
    a.0 == b.0 && a.1.bytes() == b.1.bytes()
}

// Appends the encoding of a member; out of memory, a prefix of it.
fn put_encoded(member: &(u32, Bytes), out: &mut Vec<u8>) -> Result<(), AllocError>
    ensures ok { OnOk result (out.new.items ≡ out.old.items ++ member_encoded member.now) }
    ensures err { OnErr result (GainsPrefix (member_encoded member.now) out.old.items out.new.items) }
{
    let item = member.1.bytes();
    out.extend_from_slice(&be32_bytes(member.0))?;
    out.extend_from_slice(&be32_bytes(item.len() as u32))?;
    out.extend_from_slice(item)
}

impl<M: Meter> Job for TopK<M> {
    type Val = Members;

    type Meter = M;

    ghost setting = { λ k. k };

    ghost accepts = { λ _ r. is_topk_record r };

    ghost emits = { λ _ r. topk_emits r };

    ghost joined = { λ k a b. topk_joined k a b };

    ghost good = { λ k v. topk_good k v };

    ghost text = { λ _ group v. topk_text group v };

    ghost encoded = { λ v. topk_encoded v };

    fn setting(&self) -> u32 {
        self.most
    }

    fn accepts(&self, r: &[u8]) -> bool {
        let at = tab_at(r);
        if r.len() > MOST_RECORD || at == 0 || at == r.len() {
            return false;
        }
        let behind = &r[at + 1..];
        let end = tab_at(behind);
        end < behind.len() && parse_number(&behind[..end]).is_some()
    }

    fn map(
        &self,
        alloc: Global,
        r: &[u8],
        out: &mut Emit<Members>,
        m: &mut M,
    ) -> Result<(), AllocError> {
        m.map();
        let at = tab_at(r);
        let behind = &r[at + 1..];
        let end = tab_at(behind);
        if let Some(score) = parse_number(&behind[..end]) {
            let item = Bytes::of(alloc, &behind[end + 1..])?;
            let member = Members::of(alloc, score, item)?;
            out.put(&r[..at], member)?;
        }
        Ok(())
    }

    fn combine(
        &self,
        alloc: Global,
        a: &Members,
        b: &Members,
        m: &mut M,
    ) -> Result<Members, AllocError> {
        m.join();
        merge_first(alloc, self.most, a.members(), b.members())
    }

    fn line(
        &self,
        _alloc: Global,
        k: &Key,
        v: &Members,
        out: &mut Vec<u8>,
    ) -> Result<(), AllocError> {
        put_lines(k.bytes(), v.members(), out)
    }

    fn copy(alloc: Global, v: &Members) -> Result<Members, AllocError> {
        v.copy(alloc)
    }

    fn same(a: &Members, b: &Members) -> bool {
        let mut left = a.members();
        let mut right = b.members();
        'both: while let ([x, more @ ..], [y, others @ ..]) = (left, right) {
            if !is_same(x, y) {
                return false;
            }
            left = more;
            right = others;
        }
        left.is_empty() && right.is_empty()
    }

    fn encode(v: &Members, out: &mut Vec<u8>) -> Result<(), AllocError> {
        'members: for member in v.members() {
            put_encoded(member, out)?;
        }
        Ok(())
    }

    ghost emits_good = { λ s r h. topk_emits_good s r };

    ghost join_laws = { λ s. topk_join_laws s };
}

impl<M: Meter> Swaps for TopK<M> {
    ghost joined_comm = { λ s a b g h. topk_joined_comm s a b g h };
}
