//! A payload that is being built, section by section.

ghost use Rattle.std.specs.Prelude.{◌≡◌, ◌<◌, ◌≤◌, ◌+◌, ◌/◌, ◌^◌, ◌++◌, Ok, ◌∷◌, List, flat_map, length, OnOk, OnErr, IfOk};
ghost use Rattle.std.specs.Int.{w16, w32, w64, to_be_bytes};
ghost use Rattle.id_groups.specs.Name.{Name as NameBytes};
ghost use Rattle.segment_codec.specs.Lent.{parents_left};
ghost use Rattle.segment_codec.specs.Record.{Segment, IsSegment, HasFront, segment_bytes};
ghost use Rattle.batch_codec.specs.Payload.{Payload, known_bytes, names_bytes, payload_bytes};
ghost use Rattle.batch_codec.specs.Grammar.{IsPayload};
ghost use Rattle.batch_codec.specs.Building.{IsBuilt, empty_payload, with_segment, with_level_segment, with_known, with_head, with_other_segment, with_other_name, with_front, masters_behind, others_behind};

use crate::counts::VERSION;
use id_groups::{Id, Name};
use segment_codec::{Parents, write_lent, write_segment};
use std::alloc::{AllocError, Global};
use std::marker::Model;

/// A payload that is being built. Each call adds to one section, in the order of its items; want of memory leaves all as before.
#[derive(Drop)]
pub struct BatchBuild {
    front: Vec<u8>,
    master: Vec<u8>,
    master_count: usize,
    levels: Vec<u8>,
    levels_count: usize,
    known: Vec<u8>,
    heads: Vec<u8>,
    other_count: u32,
    others: Vec<u8>,
    others_count: usize,
    other_names: Vec<u8>,
}

impl Model for BatchBuild {
    ghost use Rattle.std.specs.Prelude.{◌≤◌, length};
    ghost use Rattle.batch_codec.specs.Building.{Building};

    ghost Value = { Building };

    ghost view = { λ b. record {
      front = b.front.items;
      master = b.master.items;
      master_count = b.master_count;
      levels = b.levels.items;
      levels_count = b.levels_count;
      known = b.known.items;
      heads = b.heads.items;
      other_count = b.other_count;
      others = b.others.items;
      others_count = b.others_count;
      other_names = b.other_names.items;
    } };

    ghost invariant = { λ b. (b.master_count ≤ length b.master.items) × ((b.levels_count ≤ length b.levels.items) × (b.others_count ≤ length b.others.items)) };
}

/// Appends the bytes of an id and a name. A refusal may leave a part of them at the end.
fn append_parts(out: &mut Vec<u8>, id: Id, name: &Name) -> Result<(), AllocError>
    ensures ok { OnOk result (out.new.items ≡ out.old.items ++ known_bytes (record { id = id; name = name.now })) }
    ensures err { OnErr result (HasFront out.old.items out.new.items) }
{
    out.extend_from_slice(&id.number().to_be_bytes())?;
    out.extend_from_slice(name.lend().bytes)
}

/// Appends an id and its name. Want of memory leaves `out` as it was.
fn append_known(out: &mut Vec<u8>, id: Id, name: &Name) -> Result<(), AllocError>
    ensures ok { OnOk result (out.new.items ≡ out.old.items ++ known_bytes (record { id = id; name = name.now })) }
    ensures err { OnErr result (out.new.items ≡ out.old.items) }
{
    let len = out.len();
    let appended = append_parts(out, id, name);
    if appended.is_err() {
        out.truncate(len);
    }
    appended
}

/// Appends a name. Want of memory leaves `out` as it was.
fn append_name(out: &mut Vec<u8>, name: &Name) -> Result<(), AllocError>
    ensures ok { OnOk result (out.new.items ≡ out.old.items ++ name.now) }
    ensures err { OnErr result (out.new.items ≡ out.old.items) }
{
    out.extend_from_slice(name.lend().bytes)
}

/// What stands before the sections.
fn front_of(
    alloc: Global,
    kind: u8,
    before: u64,
    after: u64,
    cloned: u64,
) -> Result<Vec<u8>, AllocError>
    ensures { IfOk result (λ v. v.items ≡ 2 ∷ kind ∷ to_be_bytes w64 before ++ to_be_bytes w64 after ++ to_be_bytes w64 cloned) }
{
    let mut front = Vec::new(alloc);
    front.push(VERSION)?;
    front.push(kind)?;
    front.extend_from_slice(&before.to_be_bytes())?;
    front.extend_from_slice(&after.to_be_bytes())?;
    front.extend_from_slice(&cloned.to_be_bytes())?;
    Ok(front)
}

/// Appends a record and counts it. Want of memory leaves both as they were.
fn append_record(
    out: &mut Vec<u8>,
    count: &mut usize,
    low: Id,
    high: Id,
    level: u8,
    parents: &[Id],
) -> Result<(), AllocError>
    requires counted { count.old ≤ length out.old.items }
    requires segment { IsSegment (record { low = low; high = high; level = level; parents = parents.now }) }
    ensures ok { OnOk result (out.new.items ≡ out.old.items ++ segment_bytes (record { low = low; high = high; level = level; parents = parents.now })) }
    ensures count { OnOk result (count.new ≡ count.old + 1) }
    ensures counted { count.new ≤ length out.new.items }
    ensures err { OnErr result ((out.new.items ≡ out.old.items) × (count.new ≡ count.old)) }
{
    write_segment(out, low, high, level, parents)?;
    *count += 1;
    Ok(())
}

/// Appends a flat record with its parents as they are spelled, and counts it. Want of memory leaves both as they were.
fn append_lent(
    out: &mut Vec<u8>,
    count: &mut usize,
    low: Id,
    high: Id,
    parents: Parents<'_>,
) -> Result<(), AllocError>
    requires counted { count.old ≤ length out.old.items }
    requires segment { IsSegment (record { low = low; high = high; level = 0; parents = parents_left parents }) }
    ensures ok { OnOk result (out.new.items ≡ out.old.items ++ segment_bytes (record { low = low; high = high; level = 0; parents = parents_left parents.entry })) }
    ensures count { OnOk result (count.new ≡ count.old + 1) }
    ensures counted { count.new ≤ length out.new.items }
    ensures err { OnErr result ((out.new.items ≡ out.old.items) × (count.new ≡ count.old)) }
{
    write_lent(out, low, high, parents)?;
    *count += 1;
    Ok(())
}

impl BatchBuild {
    /// A payload of this kind, 1 for a flush, 2 for a clone and 3 for a whole store, with the sizes of the master group before
    /// and after, and with how many of its ids were cloned.
    pub fn new(
        alloc: Global,
        kind: u8,
        before: u64,
        after: u64,
        cloned: u64,
    ) -> Result<BatchBuild, AllocError>
        ensures built { IfOk result (λ b. IsBuilt b (empty_payload kind before after cloned)) }
        ensures count { IfOk result (λ b. b.other_count ≡ 0) }
    {
        Ok(BatchBuild {
            front: front_of(alloc, kind, before, after, cloned)?,
            master: Vec::new(alloc),
            master_count: 0,
            levels: Vec::new(alloc),
            levels_count: 0,
            known: Vec::new(alloc),
            heads: Vec::new(alloc),
            other_count: 0,
            others: Vec::new(alloc),
            others_count: 0,
            other_names: Vec::new(alloc),
        })
    }

    /// Adds a record of master ids. The three make a flat record.
    pub fn segment(&mut self, low: Id, high: Id, parents: &[Id]) -> Result<(), AllocError>
        requires { IsSegment (record { low = low; high = high; level = 0; parents = parents.now }) }
        ensures ok { OnOk result ((p : Payload) → IsBuilt self.old p → IsBuilt self.new (with_segment p (record { low = low; high = high; level = 0; parents = parents.now }))) }
        ensures count { self.new.other_count ≡ self.old.other_count }
        ensures err { OnErr result (self.new ≡ self.old) }
    {
        append_record(
            &mut self.master,
            &mut self.master_count,
            low,
            high,
            0,
            parents,
        )
    }

    /// Adds a record of a level above the flat ones. The four make one.
    pub fn level_segment(
        &mut self,
        low: Id,
        high: Id,
        level: u8,
        parents: &[Id],
    ) -> Result<(), AllocError>
        requires { IsSegment (record { low = low; high = high; level = level; parents = parents.now }) }
        ensures ok { OnOk result ((p : Payload) → IsBuilt self.old p → IsBuilt self.new (with_level_segment p (record { low = low; high = high; level = level; parents = parents.now }))) }
        ensures count { self.new.other_count ≡ self.old.other_count }
        ensures err { OnErr result (self.new ≡ self.old) }
    {
        append_record(
            &mut self.levels,
            &mut self.levels_count,
            low,
            high,
            level,
            parents,
        )
    }

    /// The records of master ids so far.
    pub fn master_records(&self) -> &[u8]
        ensures { result.now ≡ self.now.master }
    {
        &self.master
    }

    /// Adds so many records of levels above the flat ones, which stand one after another.
    pub fn level_records(&mut self, records: &[u8], count: usize) -> Result<(), AllocError>
        requires { count ≤ length records.now }
        ensures ok { OnOk result ((p : Payload) (segments : List Segment) → IsBuilt self.old p → records.now ≡ flat_map segment_bytes segments → count ≡ length segments
            → IsBuilt self.new (record p { levels = p.levels ++ segments })) }
        ensures count { self.new.other_count ≡ self.old.other_count }
        ensures err { OnErr result (self.new ≡ self.old) }
    {
        self.levels.extend_from_slice(records)?;
        self.levels_count += count;
        Ok(())
    }

    /// Adds a known id with its name.
    pub fn known(&mut self, id: Id, name: &Name) -> Result<(), AllocError>
        ensures ok { OnOk result ((p : Payload) → IsBuilt self.old p → IsBuilt self.new (with_known p (record { id = id; name = name.now }))) }
        ensures count { self.new.other_count ≡ self.old.other_count }
        ensures err { OnErr result (self.new ≡ self.old) }
    {
        append_known(&mut self.known, id, name)
    }

    /// Adds a head of the remote.
    pub fn head(&mut self, name: &Name) -> Result<(), AllocError>
        ensures ok { OnOk result ((p : Payload) → IsBuilt self.old p → IsBuilt self.new (with_head p name.now)) }
        ensures count { self.new.other_count ≡ self.old.other_count }
        ensures err { OnErr result (self.new ≡ self.old) }
    {
        append_name(&mut self.heads, name)
    }

    /// Says how many other ids there are to be. Takes no memory.
    pub fn other_count(&mut self, n: u32) -> Result<(), AllocError>
        ensures ok { result ≡ Ok tt }
        ensures built { (p : Payload) → IsBuilt self.old p → IsBuilt self.new p }
        ensures count { self.new.other_count ≡ n }
    {
        self.other_count = n;
        Ok(())
    }

    /// Adds a record of other ids. The three make a flat record.
    pub fn other_segment(&mut self, low: Id, high: Id, parents: &[Id]) -> Result<(), AllocError>
        requires { IsSegment (record { low = low; high = high; level = 0; parents = parents.now }) }
        ensures ok { OnOk result ((p : Payload) → IsBuilt self.old p → IsBuilt self.new (with_other_segment p (record { low = low; high = high; level = 0; parents = parents.now }))) }
        ensures count { self.new.other_count ≡ self.old.other_count }
        ensures err { OnErr result (self.new ≡ self.old) }
    {
        append_record(
            &mut self.others,
            &mut self.others_count,
            low,
            high,
            0,
            parents,
        )
    }

    /// Adds a flat record of other ids, whose parents are copied as they are spelled.
    pub fn other_lent(&mut self, low: Id, high: Id, parents: Parents<'_>) -> Result<(), AllocError>
        requires { IsSegment (record { low = low; high = high; level = 0; parents = parents_left parents }) }
        ensures ok { OnOk result ((p : Payload) → IsBuilt self.old p → IsBuilt self.new (with_other_segment p (record { low = low; high = high; level = 0; parents = parents_left parents.entry }))) }
        ensures count { self.new.other_count ≡ self.old.other_count }
        ensures err { OnErr result (self.new ≡ self.old) }
    {
        append_lent(&mut self.others, &mut self.others_count, low, high, parents)
    }

    /// Adds the name of the next other id.
    pub fn other_name(&mut self, name: &Name) -> Result<(), AllocError>
        ensures ok { OnOk result ((p : Payload) → IsBuilt self.old p → IsBuilt self.new (with_other_name p name.now)) }
        ensures count { self.new.other_count ≡ self.old.other_count }
        ensures err { OnErr result (self.new ≡ self.old) }
    {
        append_name(&mut self.other_names, name)
    }

    /// Adds the names of the next other ids, which stand one after another.
    pub fn other_names(&mut self, names: &[u8]) -> Result<(), AllocError>
        ensures ok { OnOk result ((p : Payload) (list : List NameBytes) → IsBuilt self.old p → names.now ≡ names_bytes list
            → IsBuilt self.new (record p { other_names = p.other_names ++ list })) }
        ensures count { self.new.other_count ≡ self.old.other_count }
        ensures err { OnErr result (self.new ≡ self.old) }
    {
        self.other_names.extend_from_slice(names)
    }

    /// The payload's bytes. The sections make a payload in the grammar, with as many other names as were said.
    pub fn finish(self) -> Result<Vec<u8>, AllocError>
        requires { (p : Payload) × IsPayload p × IsBuilt self p × (self.other_count ≡ length p.other_names) }
        ensures { (p : Payload) → IsPayload p → IsBuilt self p → self.other_count ≡ length p.other_names → IfOk result (λ v. v.items ≡ payload_bytes p) }
    {
        let mut build = self;
        build.append_masters()?;
        build.append_others()?;
        Ok(build.front)
    }

    /// Appends the sections up to the heads to what stands before them.
    fn append_masters(&mut self) -> Result<(), AllocError>
        requires records { self.old.master_count < 2 ^ 32 }
        requires levels { self.old.levels_count < 2 ^ 32 }
        requires known { length self.old.known / 28 < 2 ^ 32 }
        requires heads { length self.old.heads / 20 < 2 ^ 16 }
        ensures { OnOk result (self.new ≡ with_front self.old (masters_behind self.old self.old.front)) }
    {
        append_counted(&mut self.front, self.master_count as u32, &self.master)?;
        append_counted(&mut self.front, self.levels_count as u32, &self.levels)?;
        append_counted(&mut self.front, (self.known.len() / 28) as u32, &self.known)?;
        append_heads(&mut self.front, (self.heads.len() / 20) as u16, &self.heads)?;
        Ok(())
    }

    /// Appends the sections of the other ids to the sections before them.
    fn append_others(&mut self) -> Result<(), AllocError>
        requires { self.old.others_count < 2 ^ 32 }
        ensures { OnOk result (self.new ≡ with_front self.old (others_behind self.old self.old.front)) }
    {
        make_room(&mut self.front, &self.others, &self.other_names)?;
        self.front
            .extend_from_slice(&self.other_count.to_be_bytes())?;
        append_counted(&mut self.front, self.others_count as u32, &self.others)?;
        self.front.extend_from_slice(&self.other_names)?;
        Ok(())
    }
}

/// Takes the memory for the sections of other ids at once, as far as their size is known: nothing is moved twice.
fn make_room(front: &mut Vec<u8>, records: &[u8], names: &[u8]) -> Result<(), AllocError>
    ensures { front.new.items ≡ front.old.items }
{
    let more = records.len().saturating_add(names.len());
    front.reserve(more.saturating_add(8))
}

/// Appends a count of four bytes, and the items.
fn append_counted(out: &mut Vec<u8>, count: u32, items: &[u8]) -> Result<(), AllocError>
    ensures { OnOk result (out.new.items ≡ out.old.items ++ (to_be_bytes w32 count ++ items.now)) }
{
    out.extend_from_slice(&count.to_be_bytes())?;
    out.extend_from_slice(items)
}

/// Appends a count of two bytes, and the items.
fn append_heads(out: &mut Vec<u8>, count: u16, items: &[u8]) -> Result<(), AllocError>
    ensures { OnOk result (out.new.items ≡ out.old.items ++ (to_be_bytes w16 count ++ items.now)) }
{
    out.extend_from_slice(&count.to_be_bytes())?;
    out.extend_from_slice(items)
}
