// The check of a unit's tables: what may be wrong with a row of each, its columns in order, then the rows and tables in order.
ghost use Rattle.std.specs.Prelude.{◌≡◌};
ghost use Rattle.std.specs.Result.{result_err};
ghost use Rattle.unit.specs.Bytes.{bytes_of};
ghost use Rattle.unit.specs.Format.{columned, every_table};
ghost use Rattle.unit.specs.Law.{AcceptedExactly, RefusedFirst};
ghost use Rattle.unit.specs.Verdict.{terminal_flaw, operands_flaw, root_flaw, row_flaw, size_verdict, rows_verdict, first_of, verdict};

use crate::flaws::{Flaw, check_filled, check_flag};
use crate::records::Record;
use crate::refusal::Refusal;
use crate::rows::{
    BasicBlock, Function, Identifier, Instruction, InstructionRow, ManualMemoDependency,
    ManualMemoDependencyRoot, Phi, Place, Step, Terminal, Word,
};
use crate::table::Table;
use crate::unit_tables::Tables;
use tables::row::Row;

// What may be wrong with a row of this kind. A trait of the row's type and no method of `Tables`, so that the type says which columns there are.
trait Columns: Record {
    fn check(tables: &Tables<&[u8]>, row: &Row<Self>) -> Result<(), Flaw>
        ensures { result_err result ≡ row_flaw (bytes_of tables.now) Self.Record.TABLE row.now };
}

impl Columns for Word {
    fn check(tables: &Tables<&[u8]>, row: &Row<Word>) -> Result<(), Flaw> {
        tables.check_part(Table::WordBytes, row.part(0))
    }
}

impl Columns for Identifier {
    fn check(tables: &Tables<&[u8]>, row: &Row<Identifier>) -> Result<(), Flaw> {
        check_flag(row.cell(0))?;
        check_flag(row.cell(1))?;
        tables.check_optional(Table::Words, row.optional(2))
    }
}

impl Columns for Place {
    fn check(tables: &Tables<&[u8]>, row: &Row<Place>) -> Result<(), Flaw> {
        tables.check_number(Table::Identifiers, row.cell(0))?;
        check_flag(row.cell(2))
    }
}

impl Columns for Function {
    fn check(tables: &Tables<&[u8]>, row: &Row<Function>) -> Result<(), Flaw> {
        tables.check_part(Table::Places, row.part(0))?;
        tables.check_part(Table::Blocks, row.part(2))
    }
}

impl Tables<&[u8]> {
    fn check_terminal(&self, row: &Row<BasicBlock>, terminal: Terminal) -> Result<(), Flaw>
        ensures { result_err result ≡ terminal_flaw (bytes_of self.now) row.now terminal }
    {
        match terminal {
            Terminal::Branch { test, .. } => self.check_number(Table::Places, test),
            Terminal::Optional { .. } => check_flag(row.cell(5)),
            Terminal::Other
            | Terminal::LogicalOrTernary { .. }
            | Terminal::Sequence { .. }
            | Terminal::MaybeThrow { .. } => Ok(()),
        }
    }
}

impl Columns for BasicBlock {
    fn check(tables: &Tables<&[u8]>, row: &Row<BasicBlock>) -> Result<(), Flaw> {
        tables.check_part(Table::Phis, row.part(0))?;
        tables.check_part(Table::Instructions, row.part(2))?;
        tables.check_terminal(row, Terminal::try_from(row)?)?;
        tables.check_part(Table::Places, row.part(8))
    }
}

impl Columns for Phi {
    fn check(tables: &Tables<&[u8]>, row: &Row<Phi>) -> Result<(), Flaw> {
        tables.check_number(Table::Identifiers, row.cell(0))?;
        tables.check_part(Table::Places, row.part(1))
    }
}

impl Tables<&[u8]> {
    fn check_operands(
        &self,
        row: &Row<InstructionRow>,
        instruction: Instruction,
    ) -> Result<(), Flaw>
        ensures { result_err result ≡ operands_flaw (bytes_of self.now) row.now instruction }
    {
        match instruction {
            Instruction::LoadGlobal { name, .. } => self.check_number(Table::Words, name),
            Instruction::LoadLocal { place }
            | Instruction::DeclareLocal { place }
            | Instruction::DeclareContext { place } => self.check_number(Table::Places, place),
            Instruction::StoreLocal { target, value, .. }
            | Instruction::StoreContext { target, value, .. } => {
                self.check_number(Table::Places, target)?;
                self.check_number(Table::Places, value)?;
                check_flag(row.cell(5))
            }
            Instruction::Destructure { value, pattern, .. } => {
                self.check_number(Table::Places, value)?;
                check_flag(row.cell(5))?;
                self.check_part(Table::Places, pattern)
            }
            Instruction::PropertyLoad { object, property } => {
                self.check_number(Table::Places, object)?;
                self.check_optional(Table::Words, property)
            }
            Instruction::FunctionExpression { function } => self.check_number(
                Table::Functions,
                function,
            ),
            Instruction::StartMemoize { declared, .. } => self.check_part(
                Table::Declared,
                declared,
            ),
            Instruction::FinishMemoize { decl, .. } => self.check_number(Table::Places, decl),
            Instruction::ArrayExpression { elements } => self.check_part(Table::Places, elements),
            Instruction::CallExpression {
                callee: place,
                operands,
            }
            | Instruction::MethodCall {
                property: place,
                operands,
            } => {
                self.check_number(Table::Places, place)?;
                self.check_part(Table::Places, operands)?;
                check_filled(operands)
            }
            Instruction::Other { lvalues, operands } => {
                self.check_part(Table::Places, lvalues)?;
                self.check_part(Table::Places, operands)
            }
        }
    }
}

impl Columns for InstructionRow {
    fn check(tables: &Tables<&[u8]>, row: &Row<InstructionRow>) -> Result<(), Flaw> {
        let instruction = Instruction::try_from(row)?;
        tables.check_number(Table::Identifiers, row.cell(1))?;
        tables.check_operands(row, instruction)
    }
}

impl Tables<&[u8]> {
    fn check_root(&self, root: ManualMemoDependencyRoot) -> Result<(), Flaw>
        ensures { result_err result ≡ root_flaw (bytes_of self.now) root }
    {
        match root {
            ManualMemoDependencyRoot::NamedLocal(identifier) => self.check_number(
                Table::Identifiers,
                identifier,
            ),
            ManualMemoDependencyRoot::Global(name) => self.check_number(Table::Words, name),
        }
    }
}

impl Columns for ManualMemoDependency {
    fn check(tables: &Tables<&[u8]>, row: &Row<ManualMemoDependency>) -> Result<(), Flaw> {
        check_flag(row.cell(0))?;
        tables.check_root(ManualMemoDependencyRoot::from(row))?;
        tables.check_part(Table::Steps, row.part(2))
    }
}

impl Columns for Step {
    fn check(tables: &Tables<&[u8]>, row: &Row<Step>) -> Result<(), Flaw> {
        tables.check_number(Table::Words, row.cell(0))?;
        check_flag(row.cell(1))
    }
}

impl Tables<&[u8]> {
    fn check_rows<R: Columns>(&self) -> Result<(), Refusal>
        ensures { result_err result ≡ rows_verdict (bytes_of self.now) R.Record.TABLE }
    {
        let rows = self.bytes(R::TABLE).chunks_exact(R::TABLE.width());
        for (row, bytes) in rows.enumerate() {
            R::check(self, &Row::new(bytes)).map_err(|flaw| flaw.at(R::TABLE, row))?;
        }
        Ok(())
    }

    fn check_size(&self, table: Table) -> Result<(), Refusal>
        ensures { result_err result ≡ size_verdict (bytes_of self.now) table }
    {
        let whole = self.bytes(table).len() % table.width() == 0;
        if whole && self.rows(table) <= table.limit() {
            Ok(())
        } else {
            Err(Refusal::Size { table })
        }
    }

    fn check_sizes(&self) -> Result<(), Refusal>
        ensures { result_err result ≡ first_of (size_verdict (bytes_of self.now)) every_table }
    {
        for table in Table::ALL {
            self.check_size(table)?;
        }
        Ok(())
    }

    // One below the other and in no loop: each call is at another type.
    fn check_contents(&self) -> Result<(), Refusal>
        ensures { result_err result ≡ first_of (rows_verdict (bytes_of self.now)) columned }
    {
        self.check_rows::<Word>()?;
        self.check_rows::<Identifier>()?;
        self.check_rows::<Place>()?;
        self.check_rows::<Function>()?;
        self.check_rows::<BasicBlock>()?;
        self.check_rows::<Phi>()?;
        self.check_rows::<InstructionRow>()?;
        self.check_rows::<ManualMemoDependency>()?;
        self.check_rows::<Step>()
    }

    pub(crate) fn check(&self) -> Result<(), Refusal>
        ensures answer { result_err result ≡ verdict (bytes_of self.now) }
        ensures exactly { AcceptedExactly (bytes_of self.now) }
        ensures first { RefusedFirst (bytes_of self.now) }
    {
        self.check_sizes()?;
        self.check_contents()
    }
}
