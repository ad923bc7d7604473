//! The rule of the table, and what each kind of step tells.
ghost use Rattle.std.specs.Prelude.{ℕ};

use crate::phase::plan::Plan;
use crate::phase::trace::Line;
use atomic_table::{Join, Play, Seat, Split, Table, TableRule};
use std::alloc::Global;
use std::collections::LinkedList;
use std::marker::{Brand, PhantomData};

/// Some interleaving leads to the words, and in it the steps of each pass in a record are that record's.
pub struct Interleaved;

impl TableRule<(), LinkedList<Line>, Plan> for Interleaved {
    ghost use Rattle.entities.specs.Phase.Plan.{phase_of, words_of_marks};
    ghost use Rattle.entities.specs.Phase.Rule.{agree, blank_lines};

    ghost holds = { λ plan. agree (phase_of plan) (words_of_marks plan) };

    ghost first = { λ plan. blank_lines 0 (phase_of plan).passes };
}

/// Names an index to the proofs of a step.
pub trait Asked {
    ghost index: { ℕ };
}

impl Asked for Brand {
    ghost index = { 0 };
}

/// A new seat, which no pass has.
pub struct Sits;

impl Play<(), LinkedList<Line>> for Sits {
    ghost use Rattle.entities.specs.Phase.Rule.{tells_seat};

    ghost then = { tells_seat };
}

/// A ticket is drawn.
pub struct Draws;

impl Play<(), LinkedList<Line>> for Draws {
    ghost use Rattle.entities.specs.Phase.Rule.{tells_draw};

    ghost then = { tells_draw };
}

/// The number of drawn tickets is read.
pub struct Looks;

impl Play<(), LinkedList<Line>> for Looks {
    ghost use Rattle.entities.specs.Phase.Rule.{tells_look};

    ghost then = { tells_look };
}

/// The index that `I` names is marked.
pub struct Marks<I> {
    index: PhantomData<I>,
}

impl<I: Asked> Play<(), LinkedList<Line>> for Marks<I> {
    ghost use Rattle.entities.specs.Phase.Rule.{tells_mark};

    ghost then = { tells_mark I.index };
}

/// Whether the index that `I` names is marked is read.
pub struct Peeks<I> {
    index: PhantomData<I>,
}

impl<I: Asked> Play<(), LinkedList<Line>> for Peeks<I> {
    ghost use Rattle.entities.specs.Phase.Rule.{tells_peek};

    ghost then = { tells_peek I.index };
}

/// Cuts one pass's line off a record.
pub struct FirstLine;

impl Split<LinkedList<Line>> for FirstLine {
    ghost use Rattle.entities.specs.Phase.Rule.{first_line, other_lines};

    ghost left = { other_lines };

    ghost right = { first_line };
}

/// Puts one record before another.
pub struct BothRecords;

impl Join<LinkedList<Line>> for BothRecords {
    ghost use Rattle.std.specs.Prelude.{◌++◌, []};

    ghost both = { λ v w. w ++ v };

    ghost spent = { [] };
}

/// What a pass remembers, in proofs alone.
pub type Record = Seat<(), LinkedList<Line>>;

/// The cursor and the marks.
pub type Words = Table<(), LinkedList<Line>, Plan, Interleaved, Global>;
