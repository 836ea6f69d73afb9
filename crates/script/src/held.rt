// What the program holds, as it is before the first line and as the commands that set it leave it.
use crate::arrays::{Array, Lent};
use ledger::{COLUMNS, Run};
use meaning::limits::STEPS_MOST;
use pieces::{SoFar, begin_text};
use records::OpRecord;
use std::slice;
use tables::{Counts, LentTables};

// The most bytes of a text that are kept: as many as the buffer has places.
pub const TEXT_BYTES: usize = 16500;

// The places of a list of operators: more than the longest sequence has steps.
const LIST_PLACES: usize = 1100;

// The records of the row: more than there may be operators.
pub const ROW_RECORDS: usize = 80;

// The places of a record: its cost, its preconditions and its effects. Its mark stands in an array of its own.
const RECORD: usize = 17;

// What stands in their places before the first line.
const NO_COUNTS: Counts = Counts {
    vars: 0,
    ops: 0,
    maps: 0,
    edition: 1,
    quota: 0,
};

const NO_RUN: Run = Run {
    start: [0; 8],
    log: [0; STEPS_MOST],
    len: 0,
    now: [0; 8],
    columns: [0; COLUMNS],
};

const NO_RECORD: OpRecord = OpRecord {
    cost: 0,
    pre: [0; 8],
    eff: [0; 8],
    mark: 0,
};

// The lent tables of a task but for the counts.
#[derive(Clone, Copy, PartialEq)]
pub struct Tables {
    pub facts: Lent<u8, 1700>,
    pub costs: Lent<u32, 80>,
    pub shares: Lent<u32, 600>,
}

impl Tables {
    // What a call is lent, with these counts.
    pub fn lent(&self, counts: Counts) -> LentTables<'_> {
        LentTables {
            counts,
            facts: self.facts.lent(),
            costs: self.costs.lent(),
            shares: self.shares.lent(),
        }
    }
}

// The counts, the arrays, the text, and the text so far of one that comes in pieces, with how many bytes of the text were taken so. Each lent array has more
// places than the largest task or the longest list takes, so that lengths beyond can be tried.
#[derive(Drop)]
pub struct Held {
    pub counts: Counts,
    pub tables: Tables,
    pub out: Lent<u32, 4200>,
    pub best: Lent<u8, 4200>,
    pub state: Lent<u8, 16>,
    pub first: Lent<u32, LIST_PLACES>,
    pub second: Lent<u32, LIST_PLACES>,
    pub run: Run,
    pub row: Lent<OpRecord, ROW_RECORDS>,
    pub buffer: Lent<u8, TEXT_BYTES>,
    pub text: Lent<u8, TEXT_BYTES>,
    pub taken: usize,
    pub so_far: SoFar,
    pub area: Lent<u8, 8200>,
}

// A place of an array.
pub enum Place<'a> {
    Byte(&'a mut u8),
    Word(&'a mut u32),
}

impl Place<'_> {
    pub fn value(self) -> u32 {
        match self {
            Place::Byte(at) => u32::from(*at),
            Place::Word(at) => *at,
        }
    }

    // Puts a value there. One that a byte can't hold is passed over.
    pub fn set(self, x: u32) {
        match self {
            Place::Byte(at) => {
                if let Ok(b) = u8::try_from(x) {
                    *at = b;
                }
            }
            Place::Word(at) => *at = x,
        }
    }
}

// A place of a record.
fn record_place(record: &mut OpRecord, i: usize) -> Option<Place<'_>> {
    match i {
        0 => Some(Place::Word(&mut record.cost)),
        1..=8 => record.pre.get_mut(i - 1).map(Place::Byte),
        _ => record.eff.get_mut(i - 9).map(Place::Byte),
    }
}

impl Held {
    // All as it is before the first line.
    pub fn new() -> Held {
        let mut held = Held {
            counts: NO_COUNTS,
            tables: Tables {
                facts: Lent::of(0, 0),
                costs: Lent::of(0, 0),
                shares: Lent::of(0, 0),
            },
            out: Lent::of(0, 0),
            best: Lent::of(0, 0),
            state: Lent::of(0, 0),
            first: Lent::of(0, 0),
            second: Lent::of(0, 0),
            run: NO_RUN,
            row: Lent::of(NO_RECORD, 0),
            buffer: Lent::of(0, 0),
            text: Lent::of(0, 0),
            taken: 0,
            so_far: begin_text(),
            area: Lent::of(0, 0),
        };
        held.reset();
        held
    }

    // `z`: the same in place, since another `Held` would be made first and then copied. The area may hold anything, so it isn't 0: no reading leaves 255 in every
    // place.
    pub fn reset(&mut self) {
        self.counts = NO_COUNTS;
        self.tables.facts.reset(0, 1624);
        self.tables.costs.reset(0, 64);
        self.tables.shares.reset(0, 512);
        self.out.reset(0, 4096);
        self.best.reset(0, 4096);
        self.state.reset(0, 8);
        self.first.reset(0, 0);
        self.second.reset(0, 0);
        self.run = NO_RUN;
        self.row.reset(NO_RECORD, 0);
        self.buffer.reset(0, 16384);
        self.text.reset(0, 0);
        self.taken = 0;
        self.so_far = begin_text();
        self.area.reset(255, 8192);
    }

    // A place of an array, if it is there.
    pub fn place(&mut self, array: Array, i: usize) -> Option<Place<'_>> {
        match array {
            Array::Facts => self.tables.facts.places.get_mut(i).map(Place::Byte),
            Array::Costs => self.tables.costs.places.get_mut(i).map(Place::Word),
            Array::Shares => self.tables.shares.places.get_mut(i).map(Place::Word),
            Array::Out => self.out.places.get_mut(i).map(Place::Word),
            Array::State => self.state.places.get_mut(i).map(Place::Byte),
            Array::First => self.first.places.get_mut(i).map(Place::Word),
            Array::Second => self.second.places.get_mut(i).map(Place::Word),
            Array::Start => self.run.start.get_mut(i).map(Place::Byte),
            Array::Log => self.run.log.get_mut(i).map(Place::Word),
            Array::Len => slice::from_mut(&mut self.run.len)
                .get_mut(i)
                .map(Place::Word),
            Array::Now => self.run.now.get_mut(i).map(Place::Byte),
            Array::Column => self.run.columns.get_mut(i).map(Place::Word),
            Array::Records => record_place(self.row.places.get_mut(i / RECORD)?, i % RECORD),
            Array::Buffer => self.buffer.places.get_mut(i).map(Place::Byte),
            Array::Best => self.best.places.get_mut(i).map(Place::Byte),
            Array::Area => None,
            Array::Mark => Some(Place::Byte(&mut self.row.places.get_mut(i)?.mark)),
        }
    }

    // Values at places side by side. Places that aren't there are passed over.
    pub fn set(&mut self, array: Array, from: usize, values: &[u32]) {
        for (i, x) in (from..usize::MAX).zip(values) {
            if let Some(place) = self.place(array, i) {
                place.set(*x);
            }
        }
    }

    // A value at every place that can hold it. They are gone over by their numbers, since those of a record lie in its fields.
    pub fn fill(&mut self, array: Array, x: u32) {
        for i in 0..usize::MAX {
            let Some(place) = self.place(array, i) else {
                return;
            };
            place.set(x);
        }
    }

    // How many places of an array calls are lent; of the row, how many records.
    pub fn lend(&mut self, array: Array, n: usize) {
        match array {
            Array::Facts => self.tables.facts.lend(n),
            Array::Costs => self.tables.costs.lend(n),
            Array::Shares => self.tables.shares.lend(n),
            Array::Out => self.out.lend(n),
            Array::State => self.state.lend(n),
            Array::First => self.first.lend(n),
            Array::Second => self.second.lend(n),
            Array::Records => self.row.lend(n),
            Array::Buffer => self.buffer.lend(n),
            Array::Best => self.best.lend(n),
            Array::Area => self.area.lend(n),
            Array::Start | Array::Log | Array::Len | Array::Now | Array::Column | Array::Mark => {}
        }
    }

    // `b`: the text goes into the buffer, from its first place on; the places behind it stay.
    pub fn copy_text(&mut self) {
        let text = self.text.lent();
        if let Some(front) = self.buffer.places.get_mut(..text.len()) {
            front.copy_from_slice(text);
        }
    }

    // `u`: the first bytes of the buffer are the text, or all of them. Pieces are taken from its beginning on.
    pub fn take_copy(&mut self, n: usize) {
        self.text.places = self.buffer.places;
        self.text.lend(n.min(TEXT_BYTES));
        self.taken = 0;
    }
}
