// The tables of one line, in memory that is used again from line to line.
ghost use Rattle.std.specs.Prelude.{◌≡◌, OnErr, vec_items};
ghost use Rattle.unit.specs.Bytes.{Bytes, map_tables, no_bytes, bytes_of};
ghost use Rattle.unit_lines.specs.Answers.{Reads};
ghost use Rattle.unit_lines.specs.Line.{line_tables};
ghost use Rattle.unit_lines.specs.Written.{ReadsItsOwnLine};

use crate::error::LineError;
use crate::fields::{read_field, take_field};
use std::alloc::Global;
use std::marker::Model;
use unit::unit_tables::Tables;

#[derive(Drop)]
pub struct UnitLine {
    tables: Tables<Vec<u8>>,
}

// Seen from outside, a line's memory is the bytes that it holds.
impl Model for UnitLine {
    ghost Value = { Bytes };

    ghost view = { λ l. map_tables vec_items l.tables };
}

impl UnitLine {
    // Here and below each of the ten stands by its name, so that a field of the line meets its table by name and not by number; one method for
    // all ten would have the same list.
    pub fn new(heap: Global) -> UnitLine
        ensures { result ≡ no_bytes }
    {
        UnitLine {
            tables: Tables {
                word_bytes: Vec::new(heap),
                words: Vec::new(heap),
                identifiers: Vec::new(heap),
                places: Vec::new(heap),
                functions: Vec::new(heap),
                blocks: Vec::new(heap),
                phis: Vec::new(heap),
                instructions: Vec::new(heap),
                declared: Vec::new(heap),
                steps: Vec::new(heap),
            },
        }
    }

    fn clear(&mut self)
        ensures { self.new ≡ no_bytes }
    {
        self.tables.word_bytes.clear();
        self.tables.words.clear();
        self.tables.identifiers.clear();
        self.tables.places.clear();
        self.tables.functions.clear();
        self.tables.blocks.clear();
        self.tables.phis.clear();
        self.tables.instructions.clear();
        self.tables.declared.clear();
        self.tables.steps.clear();
    }

    fn fill(&mut self, line: &[u8]) -> Result<(), LineError>
        ensures { Reads result (line_tables line.now) (λ _. self.new) }
    {
        let rest = take_field(line, &mut self.tables.word_bytes)?;
        let rest = take_field(rest, &mut self.tables.words)?;
        let rest = take_field(rest, &mut self.tables.identifiers)?;
        let rest = take_field(rest, &mut self.tables.places)?;
        let rest = take_field(rest, &mut self.tables.functions)?;
        let rest = take_field(rest, &mut self.tables.blocks)?;
        let rest = take_field(rest, &mut self.tables.phis)?;
        let rest = take_field(rest, &mut self.tables.instructions)?;
        let rest = take_field(rest, &mut self.tables.declared)?;
        read_field(rest, &mut self.tables.steps)
    }

    // Takes over the tables of a line; where it gives none, all ten are empty.
    pub fn read(&mut self, line: &[u8]) -> Result<(), LineError>
        ensures tables { Reads result (line_tables line.now) (λ _. self.new) }
        ensures own { ReadsItsOwnLine line.now }
        ensures emptied { OnErr result (self.new ≡ no_bytes) }
    {
        // Not by `inspect_err`: a proof knows nothing of what a closure wrote through `self`.
        let done = self.fill(line);
        if done.is_err() {
            self.clear();
        }
        done
    }

    pub fn tables(&self) -> Tables<&[u8]>
        ensures { bytes_of result ≡ self.now }
    {
        Tables {
            word_bytes: &self.tables.word_bytes,
            words: &self.tables.words,
            identifiers: &self.tables.identifiers,
            places: &self.tables.places,
            functions: &self.tables.functions,
            blocks: &self.tables.blocks,
            phis: &self.tables.phis,
            instructions: &self.tables.instructions,
            declared: &self.tables.declared,
            steps: &self.tables.steps,
        }
    }
}
