//! Groups, those with one key put together.

ghost use Rattle.std.specs.Prelude.{◌≡◌, [], ◌∷◌, ◌++◌, List, map, drop, IfOk, OnOk};
ghost use Rattle.std.specs.List.{flat_map};
ghost use Rattle.sql_plan.specs.declared.partial.Gathered.{Gathered};
ghost use Rattle.sql_plan.specs.Rows.{Cells, row_cmp};
ghost use Rattle.sql_meaning.specs.Parts as joining;
ghost use Rattle.sql_merge.specs.Joined.{joined_from, joined_sorted};

use crate::entries::{Entry, in_order};
use crate::gathered::{all_joined, copies};
use sql_plan::{Aggregated, Gathered, Group, Partial, Row};
use sqlite_items::Items;
use std::alloc::{AllocError, Global};
use std::cmp::Ordering;
use std::marker::Model;
use std::mem;

/// The groups of one key, put together, seen as the key with what was gathered.
#[derive(Drop)]
pub(crate) struct JoinedGroup<'a> {
    pub(crate) key: &'a Row,
    pub(crate) gathered: Items<Gathered>,
}

impl<'a> Model for JoinedGroup<'a> {
    ghost use Rattle.std.specs.Prelude.{List};
    ghost use Rattle.sql_plan.specs.declared.partial.Gathered.{Gathered as Found};
    ghost use Rattle.sql_plan.specs.Rows.{Cells};

    ghost Value = { Cells × List Found };

    ghost view = { λ g. (g.key.now, g.gathered) };
}

/// The group of an entry.
fn group_of<'a>(
    alloc: Global,
    entry: &Entry<'a, Row, Items<Gathered>>,
) -> Result<JoinedGroup<'a>, AllocError>
    ensures { IfOk result (λ group. group ≡ entry.now) }
{
    Ok(JoinedGroup {
        key: entry.key,
        gathered: copies(alloc, entry.value.as_slice())?,
    })
}

/// The groups so far, and the last one, of which the next may have the key.
#[derive(Drop)]
struct Joining<'a> {
    done: Vec<JoinedGroup<'a>>,
    last: JoinedGroup<'a>,
}

impl<'a> Joining<'a> {
    /// Takes the next group.
    fn add(
        &mut self,
        alloc: Global,
        aggregates: &[Aggregated],
        next: &Entry<'a, Row, Items<Gathered>>,
    ) -> Result<(), AllocError>
        ensures { OnOk result ((more : List (Cells × List Gathered)) → self.new.done.items ++ joined_from row_cmp (joining.all_joined aggregates.now) self.new.last more ≡ self.old.done.items ++ joined_from row_cmp (joining.all_joined aggregates.now) self.old.last (next.now ∷ more)) }
    {
        if next.key.cmp(self.last.key) == Ordering::Equal {
            let gathered = self.last.gathered.as_slice();
            self.last.gathered = all_joined(alloc, aggregates, gathered, next.value.as_slice())?;
        } else {
            let last = mem::replace(&mut self.last, group_of(alloc, next)?);
            self.done.push(last)?;
        }
        Ok(())
    }
}

/// Groups in order, those with one key put together.
fn join_sorted<'a>(
    alloc: Global,
    aggregates: &[Aggregated],
    sorted: &[Entry<'a, Row, Items<Gathered>>],
) -> Result<Vec<JoinedGroup<'a>>, AllocError>
    ensures { IfOk result (λ groups. groups.items ≡ joined_sorted row_cmp (joining.all_joined aggregates.now) sorted.now) }
{
    let Some((first, rest)) = sorted.split_first() else {
        return Ok(Vec::new(alloc));
    };
    let mut groups = Joining {
        done: Vec::new(alloc),
        last: group_of(alloc, first)?,
    };
    for next in rest {
        groups.add(alloc, aggregates, next)?;
    }
    let Joining { mut done, last } = groups;
    done.push(last)?;
    Ok(done)
}

/// Adds groups to others.
fn add_groups<'a>(
    entries: &mut Vec<Entry<'a, Row, Items<Gathered>>>,
    groups: &'a [Group],
) -> Result<(), AllocError>
    ensures { OnOk result (entries.new.items ≡ entries.old.items ++ map (λ g. (g.key, g.gathered)) groups.now) }
{
    entries.reserve(groups.len())?;
    for group in groups {
        entries.push(Entry {
            key: &group.key,
            value: &group.gathered,
        })?;
    }
    Ok(())
}

/// Adds the groups of a part.
fn add_part<'a>(
    entries: &mut Vec<Entry<'a, Row, Items<Gathered>>>,
    part: &'a Partial,
) -> Result<(), AllocError>
    ensures { OnOk result (entries.new.items ≡ entries.old.items ++ joining.groups_in part.now) }
{
    match part {
        Partial::Groups { groups, .. } => add_groups(entries, groups.as_slice()),
        _ => Ok(()),
    }
}

/// The groups of all parts, one behind another.
fn all_groups<'a>(
    alloc: Global,
    parts: &'a [Partial],
) -> Result<Vec<Entry<'a, Row, Items<Gathered>>>, AllocError>
    ensures { IfOk result (λ groups. groups.items ≡ flat_map joining.groups_in parts.now) }
{
    let mut entries = Vec::new(alloc);
    for part in parts {
        add_part(&mut entries, part)?;
    }
    Ok(entries)
}

/// The groups of all parts, those with one key put together.
pub(crate) fn joined_groups<'a>(
    alloc: Global,
    aggregates: &[Aggregated],
    parts: &'a [Partial],
) -> Result<Vec<JoinedGroup<'a>>, AllocError>
    ensures { IfOk result (λ groups. groups.items ≡ joining.joined_groups aggregates.now parts.now) }
{
    let sorted = in_order(all_groups(alloc, parts)?)?;
    join_sorted(alloc, aggregates, sorted.as_slice())
}
