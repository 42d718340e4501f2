// The engines or the deliveries of a file: columns of names and of two numbers each, filled from the front.
ghost use Rattle.std.specs.Prelude.{◌≡◌, []};
ghost use Rattle.planreader.specs.Columns.{columns_of};
ghost use Rattle.planreader.specs.Items.{fields_in, place_among, Ruled, Adds};
ghost use Rattle.planreader.specs.Plans.{names_in};

use crate::names::Name;
use crate::{names, numeral};
use planning::Fault;
use std::ops::RangeInclusive;

// The engines or the deliveries of a plan, as specs/Columns' `columns_of` has them: a column of their names and of each of their two numbers, watts
// and fuel or energy and limit. Behind the count a name has no byte, and a number is 0. They stand in columns, and no heap may hold them: the
// allocation on numbers takes each number of theirs as a list of its own.
#[derive(Clone, Copy)]
pub struct Items<const MOST: usize> {
    pub count: usize,
    pub names: [Name; MOST],
    pub firsts: [u64; MOST],
    pub seconds: [u64; MOST],
}

// The fields of a record behind its kind: the text that its name is taken from, and the parts of its third and fourth field.
#[derive(Clone, Copy)]
pub(crate) struct ItemFields<'a> {
    pub name: &'a [u8],
    pub third: &'a [u8],
    pub fourth: &'a [u8],
}

// What a kind of item has to keep: the ranges of its two numbers, by which alone the kinds differ.
#[derive(Drop)]
pub(crate) struct Rule {
    pub first: RangeInclusive<u64>,
    pub second: RangeInclusive<u64>,
}

impl<const MOST: usize> Items<MOST> {
    // No items.
    pub(crate) fn none() -> Items<MOST>
        ensures { result ≡ columns_of MOST [] }
    {
        Items {
            count: 0,
            names: [Name::of(b""); MOST],
            firsts: [0; MOST],
            seconds: [0; MOST],
        }
    }

    // The place of a name among theirs.
    pub(crate) fn find(&self, name: &[u8]) -> Option<usize>
        ensures { result ≡ place_among name.now (names_in self.now) }
    {
        self.names
            .iter()
            .take(self.count)
            .position(|other| other.is(name))
    }

    // Adds the item of a record: 7 for one too many, then its fields from the left.
    pub(crate) fn add(&mut self, fields: ItemFields<'_>, rule: &Rule) -> Result<(), Fault>
        requires { Ruled rule.now }
        ensures { Adds rule.now (fields_in fields.entry) self.old self.new result }
    {
        if MOST <= self.count {
            return Err(Fault::Count);
        }
        if !names::is_sound(fields.name) || self.find(fields.name).is_some() {
            return Err(Fault::Name);
        }
        let first = numeral::in_range(fields.third, &rule.first).ok_or(Fault::Value)?;
        let second = numeral::in_range(fields.fourth, &rule.second).ok_or(Fault::Value)?;
        let k = self.count;
        self.names[k] = Name::of(fields.name);
        self.firsts[k] = first;
        self.seconds[k] = second;
        self.count += 1;
        Ok(())
    }
}
