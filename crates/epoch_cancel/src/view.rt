//! The rule of the table, and the kinds of step that are made on it: types for the proofs alone, of
//! which no value is made.

use atomic_table::{Join, Play, Split, TableRule};
use league_core::Event;
use std::collections::LinkedList;
use std::snapshot::Snapshot;

/// What a seat knows: the events that it was told, and the list that came to it last; how often it
/// looked at the word, and the newest epoch found there. One seat owns the word.
pub struct View {
    pub owns: bool,
    pub list: LinkedList<Event>,
    pub other: LinkedList<Event>,
    pub loads: u64,
    pub newest: u64,
}

/// The rule of the word. The table is told the events with which it begins.
pub struct Law;

impl TableRule<(), View, Snapshot<Vec<Event>>> for Law {
    ghost use Rattle.epoch_cancel.specs.inside.Rule.{IsRuled};
    ghost use Rattle.epoch_cancel.specs.inside.Views.{owner_of};

    ghost holds = { λ _. IsRuled };

    ghost first = { λ key. owner_of key.value.items };
}

/// The owner stores the word of one event more.
pub struct Store;

impl Play<(), View> for Store {
    ghost use Rattle.epoch_cancel.specs.inside.Moves.{StoresWord};

    ghost then = { StoresWord };
}

/// A seat compares its two lists.
pub struct Compare;

impl Play<(), View> for Compare {
    ghost use Rattle.epoch_cancel.specs.inside.Moves.{ComparesLists};

    ghost then = { ComparesLists };
}

/// A worker looks at the word.
pub struct Look;

impl Play<(), View> for Look {
    ghost use Rattle.epoch_cancel.specs.inside.Moves.{FindsEpoch};

    ghost then = { FindsEpoch };
}

/// A note of what a seat knows, for another seat.
pub struct Note;

impl Split<View> for Note {
    ghost use Rattle.epoch_cancel.specs.inside.Views.{view_noted};

    ghost left = { λ view. view };

    ghost right = { view_noted };
}

/// A new seat that knows what another one knows, and has not looked.
pub struct Fresh;

impl Split<View> for Fresh {
    ghost use Rattle.epoch_cancel.specs.inside.Views.{view_fresh};

    ghost left = { λ view. view };

    ghost right = { view_fresh };
}

/// A seat takes the longer of its own list and that of a note.
pub struct Longer;

impl Join<View> for Longer {
    ghost use Rattle.epoch_cancel.specs.inside.Views.{nobody, view_longer};

    ghost both = { view_longer };

    ghost spent = { nobody };
}

/// The owner takes a note, and keeps its own list.
pub struct Told;

impl Join<View> for Told {
    ghost use Rattle.epoch_cancel.specs.inside.Views.{nobody, view_beside};

    ghost both = { view_beside };

    ghost spent = { nobody };
}
