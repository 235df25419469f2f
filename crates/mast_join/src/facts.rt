//! The facts of a map as numbers, and the sets of rows that give them.
ghost use Rattle.std.specs.Prelude.{◌≡◌, ◌<◌, Some, length, slice_get, IfOk, OnOk};
ghost use Rattle.std.specs.Option.{option_copied};
ghost use Rattle.mast_canon.specs.Choices.{IsChoice};
ghost use Rattle.mast_canon.specs.Facts.{chosen_rows};
ghost use Rattle.mast_join.specs.Chosen.{AreChoices};
ghost use Rattle.mast_join.specs.inside.MadeFacts.{AddsFact, AreFactsOf, HasSet, IsBase, IsPoolMore, IsPoolOf, asked_over, fact_by, rows_by};
ghost use Rattle.mast_join.specs.inside.Places.{AreHeadPlaces};
ghost use Rattle.mast_join.specs.inside.Values.{IsFront};

use crate::base::Base;
use crate::extensions::Wanted;
use crate::found::Choices;
use crate::places::{head_places, of_head};
use crate::plan::choices;
use crate::values::{HeadPlaces, Values};
use mast_canon::{RowId, table_number};
use mast_mapping::SplitMap;
use mast_numbers::Terms;
use mast_sql::FromEntry;
use mast_tables::TableDecl;
use mast_terms::{List, NoMemory};
use std::alloc::Global;

// So many sets are the most: their numbers have 32 bits.
const MOST: usize = 0xFFFF_FFFF;

// A fact: the numbers of its terms, of which a class has one twice, and where it is wanted of the set of the rows that give it.
#[derive(Clone, Copy)]
pub(crate) struct MadeFact {
    pub(crate) first: u32,
    pub(crate) second: u32,
    pub(crate) set: u32,
}

// What has numbers: terms, the values of tables by the numbers that these give them, and sets of rows.
#[derive(Drop)]
pub(crate) struct Pool {
    pub(crate) terms: Terms,
    pub(crate) values: Values,
    pub(crate) sets: Vec<List<RowId>>,
}

// The rows of a choice.
fn rows_of(
    alloc: Global,
    decls: &[TableDecl],
    entries: &[FromEntry],
    choice: &[u32],
) -> Result<List<RowId>, NoMemory>
    requires few { length decls.now < 4294967295 }
    requires long { length choice.now ≡ length entries.now }
    ensures { IfOk result (λ rows. rows ≡ chosen_rows decls.now entries.now choice.now) }
{
    let mut rows = List::new(alloc);
    for place in 0..entries.len() {
        rows.push(
            alloc,
            RowId {
                table: table_number(&entries[place].table, decls) as u32,
                number: choice[place],
            },
        )?;
    }
    Ok(rows)
}

// Puts a set behind the others, and gives its number.
fn push_set(sets: &mut Vec<List<RowId>>, rows: List<RowId>) -> Result<u32, NoMemory>
    ensures front { IsFront sets.old.items sets.new.items }
    ensures set { IfOk result (λ number. slice_get sets.new.items number ≡ Some rows) }
{
    let number = sets.len();
    if number >= MOST {
        return Err(NoMemory);
    }
    sets.push(rows)?;
    Ok(number as u32)
}

// The number of the set of the rows of a choice, where sets are wanted.
fn set_of(
    alloc: Global,
    wanted: Wanted,
    decls: &[TableDecl],
    entries: &[FromEntry],
    choice: &[u32],
    sets: &mut Vec<List<RowId>>,
) -> Result<u32, NoMemory>
    requires few { length decls.now < 4294967295 }
    requires long { length choice.now ≡ length entries.now }
    ensures front { IsFront sets.old.items sets.new.items }
    ensures set { IfOk result (λ number. HasSet wanted sets.new.items number (chosen_rows decls.now entries.now choice.now)) }
{
    match wanted {
        Wanted::Tuples => Ok(0),
        Wanted::SomeHits => {
            let rows = rows_of(alloc, decls, entries, choice)?;
            push_set(sets, rows)
        }
        Wanted::AllHits => {
            let rows = rows_of(alloc, decls, entries, choice)?;
            push_set(sets, rows)
        }
    }
}

// Puts the fact that a choice gives, if it gives one.
fn add_choice(
    alloc: Global,
    base: &Base<'_, '_, '_, '_>,
    map: &SplitMap,
    places: &HeadPlaces,
    choice: &[u32],
    pool: &mut Pool,
    facts: &mut Vec<MadeFact>,
) -> Result<(), NoMemory>
    requires base { IsBase base.now }
    requires places { AreHeadPlaces pool.old.terms base.now.spec.now.tables map.now.query map.now.head places.now }
    requires choice { IsChoice base.now.spec.now.tables base.now.tables.now.list map.now.query choice.now }
    requires pool { IsPoolOf base.now pool.old }
    ensures pool { IsPoolOf base.now pool.new }
    ensures more { IsPoolMore pool.old pool.new }
    ensures added { OnOk result (AddsFact base.now.wanted pool.new (fact_by (asked_over base.now) map.now choice.now) (rows_by (asked_over base.now) map.now choice.now) facts.old.items facts.new.items) }
{
    let numbers = of_head(
        alloc,
        &mut pool.terms,
        &mut pool.values,
        base.tables,
        choice,
        places,
    )?;
    match numbers {
        None => Ok(()),
        Some((first, second)) => {
            let decls = base.spec.tables.as_slice();
            let entries = map.query.from.as_slice();
            let set = set_of(alloc, base.wanted, decls, entries, choice, &mut pool.sets)?;
            facts.push(MadeFact { first, second, set })?;
            Ok(())
        }
    }
}

// The facts that choices give.
fn facts_by(
    alloc: Global,
    base: &Base<'_, '_, '_, '_>,
    map: &SplitMap,
    places: &HeadPlaces,
    found: &Choices,
    pool: &mut Pool,
) -> Result<Vec<MadeFact>, NoMemory>
    requires base { IsBase base.now }
    requires places { AreHeadPlaces pool.old.terms base.now.spec.now.tables map.now.query map.now.head places.now }
    requires choices { AreChoices base.now.spec.now.tables base.now.tables.now.list map.now.query (option_copied base.now.only) found.now.list }
    requires pool { IsPoolOf base.now pool.old }
    ensures facts { IfOk result (λ facts. AreFactsOf base.now pool.new map.now facts.items) }
    ensures pool { IsPoolOf base.now pool.new }
    ensures more { IsPoolMore pool.old pool.new }
{
    let mut facts = Vec::new(alloc);
    for number in 0..found.len() {
        add_choice(
            alloc,
            base,
            map,
            places,
            found.choice(number),
            pool,
            &mut facts,
        )?;
    }
    Ok(facts)
}

// The facts of a map.
pub(crate) fn map_facts(
    alloc: Global,
    base: &Base<'_, '_, '_, '_>,
    map: &SplitMap,
    pool: &mut Pool,
) -> Result<Vec<MadeFact>, NoMemory>
    requires base { IsBase base.now }
    requires pool { IsPoolOf base.now pool.old }
    ensures facts { IfOk result (λ facts. AreFactsOf base.now pool.new map.now facts.items) }
    ensures pool { IsPoolOf base.now pool.new }
    ensures more { IsPoolMore pool.old pool.new }
{
    let decls = base.spec.tables.as_slice();
    let found = choices(alloc, &map.query, decls, base.tables, base.only)?;
    let places = head_places(alloc, &mut pool.terms, decls, &map.query, &map.head)?;
    facts_by(alloc, base, map, &places, &found, pool)
}
