//! The changes of a seed, one after the other.
ghost use Rattle.std.specs.Prelude.{◌≡◌, ◌+◌, ◌/◌, ◌^◌, ◌<◌, ◌≤◌, ◌⊎◌, IfOk, OnOk, OnErr, length, take};
ghost use Rattle.dg_changes.specs.ChangeGrammar.{change_with, named};
ghost use Rattle.dg_changes.specs.GeneratedChanges.{next_number, part_of};
ghost use Rattle.dg_workload.specs.Position.{change_at, first_position, next_position};
ghost use Rattle.dg_workload.specs.Request.{with_request_key};

use crate::request::requested;
use crate::text_numbers::numbered;
use dg_graph::Change;
use dg_history::BATCH_LINES_MAX;
use dg_names::Names;
use dg_text::NAMES_MAX;
use std::alloc::AllocError;
use std::marker::Model;

/// A number leads to the next one by this factor, modulo 2^64.
const FACTOR: u64 = 6_364_136_223_846_793_005;

/// The product has this added to it, modulo 2^64.
const INCREMENT: u64 = 1_442_695_040_888_963_407;

/// The low bits of a number that a change does not go by.
const BITS_LEFT_OUT: u32 = 33;

/// The instant of the first two changes.
const FIRST_TIME: u64 = 1000;

/// How many changes have one instant.
const CHANGES_OF_INSTANT: u32 = 2;

/// How many changes a group has.
const CHANGES_OF_GROUP: u32 = 8;

/// The changes of a seed, one after the other. A generator is seen as its position: the index of the change
/// that comes next, from 0, and the number behind which it comes.
#[derive(Drop)]
pub struct Generator {
    index: u32,
    number: u64,
}

impl Model for Generator {
    ghost use Rattle.dg_workload.specs.Position.{Position};

    ghost Value = { Position };

    ghost view = { λ generator. record { index = generator.index; number = generator.number } };
}

impl Generator {
    /// The generator before the first change of the seed.
    pub fn new(seed: u64) -> Generator
        ensures { result ≡ first_position seed }
    {
        Generator {
            index: 0,
            number: seed,
        }
    }

    /// The next change, by the numbers of its texts in the names, which get those that they lack, the key
    /// before the value. An `Err` says that memory ran out for a new name: then the names may have the key
    /// as a new last one. The generator is past the change in both cases.
    pub fn next(&mut self, names: &mut Names) -> Result<Change, AllocError>
        requires few { self.old.index < BATCH_LINES_MAX }
        requires room { length names.old + 2 ≤ NAMES_MAX }

        // The change, and the names with its texts.
        ensures change { IfOk result (λ change. change ≡ change_with names.old (change_at self.old)) }
        ensures named { OnOk result (names.new ≡ named names.old (change_at self.old).asked) }
        ensures position { self.new ≡ next_position self.old }

        // No memory for a name that is new.
        ensures new_name { OnErr result (length names.old < length (named names.old (change_at self.old).asked)) }
        ensures key_alone { OnErr result ((names.new ≡ names.old) ⊎ (names.new ≡ with_request_key names.old (change_at self.old).asked)) }

        // Every name keeps its number, and at most two are new.
        ensures kept { take (length names.old) names.new ≡ names.old }
        ensures few { length names.new ≤ length names.old + 2 }
    {
        let kind = self.index % CHANGES_OF_GROUP;
        let group = self.index / CHANGES_OF_GROUP;
        let time = time_of(self.index);
        let number = number_behind(self.number);
        let request = requested(kind, group, part(number));
        self.index += 1;
        self.number = number;
        let what = numbered(request, names)?;
        Ok(Change { time, what })
    }
}

// The number behind this one.
fn number_behind(number: u64) -> u64
    ensures { result ≡ next_number number }
{
    number.wrapping_mul(FACTOR).wrapping_add(INCREMENT)
}

// The part of a number that a change goes by.
fn part(number: u64) -> u64
    ensures { result ≡ part_of number }
{
    number >> BITS_LEFT_OUT
}

// The instant of the change of this index.
fn time_of(index: u32) -> u64
    ensures { result ≡ 1000 + index / 2 }
{
    FIRST_TIME + u64::from(index / CHANGES_OF_INSTANT)
}
