// Rows read from their bytes: for each kind of rows the table that has them, its columns, and what they say.
ghost use Rattle.std.specs.Prelude.{ℕ, ◌≡◌, ◌*◌, List, refl};
ghost use Rattle.tables.specs.Cells.{cell};
ghost use Rattle.unit.specs.Bytes.{Bytes};
ghost use Rattle.unit.specs.Format.{width};
ghost use Rattle.unit.specs.Inside.{WordInside, IdentifierInside, PlaceInside, FunctionInside, BlockInside, PhiInside, InstructionInside, DeclaredInside, StepInside};
ghost use Rattle.unit.specs.Kinds.{OfKind};
ghost use Rattle.unit.specs.Rows.{HasKind, word_row_of, identifier_of, place_of, function_of, terminal_of, block_of, phi_of, instruction_of, instruction_row_of, root_of, declared_of, step_of};
ghost use Rattle.unit.specs.Sound.{RowSound};
ghost use Rattle.unit.specs.declared.table.Table.{Table};

use crate::rows::{
    BasicBlock, Function, Identifier, Instruction, InstructionRow, ManualMemoDependency,
    ManualMemoDependencyRoot, Phi, Place, Step, Terminal, Word,
};
use crate::table::Table;
use tables::row::{Layout, Row};

// The number of a kind that there is not.
#[derive(Clone, Copy, PartialEq, Eq, Debug)]
pub struct UnknownKind(pub u32);

// The rows of one table.
pub trait Record: Layout {
    ghost TABLE: { Table };

    const TABLE: Table;

    // What a row says, and when that lies inside the tables.
    ghost decode: { List ℕ → Self };

    ghost inside: { Bytes → Self → Type 0 };

    fn decode(row: &Row<Self>) -> Self
        requires { HasKind TABLE row.now }
        ensures { result ≡ decode row.now };

    ghost wide: { width TABLE ≡ 4 * Self.columns };

    ghost sound_inside: { (b : Bytes) (row : List ℕ) → RowSound b TABLE row → inside b (decode row) };
}

impl Layout for Word {
    ghost columns = { 2 };
}

impl Record for Word {
    ghost TABLE = { Table.Words };

    const TABLE: Table = Table::Words;

    ghost decode = { word_row_of };

    ghost inside = { WordInside };

    fn decode(row: &Row<Word>) -> Word {
        Word { bytes: row.part(0) }
    }

    ghost wide = { refl };

    ghost sound_inside = { λ b row s. s };
}

impl Layout for Identifier {
    ghost columns = { 3 };
}

impl Record for Identifier {
    ghost TABLE = { Table.Identifiers };

    const TABLE: Table = Table::Identifiers;

    ghost decode = { identifier_of };

    ghost inside = { IdentifierInside };

    fn decode(row: &Row<Identifier>) -> Identifier {
        Identifier {
            named: row.flag(0),
            use_ref: row.flag(1),
            shape: row.optional(2),
        }
    }

    ghost wide = { refl };

    ghost sound_inside = { λ b row s. s.2 };
}

impl Layout for Place {
    ghost columns = { 3 };
}

impl Record for Place {
    ghost TABLE = { Table.Places };

    const TABLE: Table = Table::Places;

    ghost decode = { place_of };

    ghost inside = { PlaceInside };

    fn decode(row: &Row<Place>) -> Place {
        Place {
            identifier: row.cell(0),
            span: row.optional(1),
            spread: row.flag(2),
        }
    }

    ghost wide = { refl };

    ghost sound_inside = { λ b row s. s.0 };
}

impl Layout for Function {
    ghost columns = { 4 };
}

impl Record for Function {
    ghost TABLE = { Table.Functions };

    const TABLE: Table = Table::Functions;

    ghost decode = { function_of };

    ghost inside = { FunctionInside };

    fn decode(row: &Row<Function>) -> Function {
        Function {
            params: row.part(0),
            blocks: row.part(2),
        }
    }

    ghost wide = { refl };

    ghost sound_inside = { λ b row s. s };
}

impl<'r, 'a> TryFrom<&'r Row<'a, BasicBlock>> for Terminal {
    type Error = UnknownKind;

    ghost try_from_gives = { λ row result. OfKind 0 5 (cell row.now 4) (terminal_of row.now) result };

    fn try_from(row: &'r Row<'a, BasicBlock>) -> Result<Terminal, UnknownKind> {
        let a = row.cell(5);
        let b = row.cell(6);
        let c = row.cell(7);
        Ok(match row.cell(4) {
            0 => Terminal::Other,
            1 => Terminal::Branch {
                test: a,
                consequent: b,
                fallthrough: c,
            },
            2 => Terminal::Optional {
                optional: row.flag(5),
                test: b,
                fallthrough: c,
            },
            3 => Terminal::LogicalOrTernary { test: b },
            4 => Terminal::Sequence { block: b },
            5 => Terminal::MaybeThrow { continuation: b },
            kind => return Err(UnknownKind(kind)),
        })
    }
}

impl Layout for BasicBlock {
    ghost columns = { 10 };
}

impl Record for BasicBlock {
    ghost TABLE = { Table.Blocks };

    const TABLE: Table = Table::Blocks;

    ghost decode = { block_of };

    ghost inside = { BlockInside };

    fn decode(row: &Row<BasicBlock>) -> BasicBlock {
        BasicBlock {
            phis: row.part(0),
            instructions: row.part(2),
            terminal: Terminal::try_from(row).unwrap(),
            operands: row.part(8),
        }
    }

    ghost wide = { refl };

    ghost sound_inside = { λ b row s. s.2 };
}

impl Layout for Phi {
    ghost columns = { 3 };
}

impl Record for Phi {
    ghost TABLE = { Table.Phis };

    const TABLE: Table = Table::Phis;

    ghost decode = { phi_of };

    ghost inside = { PhiInside };

    fn decode(row: &Row<Phi>) -> Phi {
        Phi {
            identifier: row.cell(0),
            operands: row.part(1),
        }
    }

    ghost wide = { refl };

    ghost sound_inside = { λ b row s. s };
}

impl<'r, 'a> TryFrom<&'r Row<'a, InstructionRow>> for Instruction {
    type Error = UnknownKind;

    ghost try_from_gives = { λ row result. OfKind 1 15 (cell row.now 0) (instruction_of row.now) result };

    fn try_from(row: &'r Row<'a, InstructionRow>) -> Result<Instruction, UnknownKind> {
        let a = row.cell(3);
        let b = row.cell(4);
        let part = row.part(6);
        Ok(match row.cell(0) {
            1 => Instruction::LoadGlobal {
                name: a,
                binding: b,
            },
            2 => Instruction::LoadLocal { place: a },
            3 => Instruction::DeclareLocal { place: a },
            4 => Instruction::DeclareContext { place: a },
            5 => Instruction::StoreLocal {
                target: a,
                value: b,
                reassign: row.flag(5),
            },
            6 => Instruction::StoreContext {
                target: a,
                value: b,
                reassign: row.flag(5),
            },
            7 => Instruction::Destructure {
                value: b,
                reassign: row.flag(5),
                pattern: part,
            },
            8 => Instruction::PropertyLoad {
                object: a,
                property: row.optional(4),
            },
            9 => Instruction::FunctionExpression { function: a },
            10 => Instruction::StartMemoize {
                memo_id: a,
                span: row.optional(5),
                declared: part,
            },
            11 => Instruction::FinishMemoize {
                memo_id: a,
                decl: b,
            },
            12 => Instruction::ArrayExpression { elements: part },
            13 => Instruction::CallExpression {
                callee: a,
                operands: part,
            },
            14 => Instruction::MethodCall {
                property: a,
                operands: part,
            },
            15 => Instruction::Other {
                lvalues: row.part(4),
                operands: part,
            },
            kind => return Err(UnknownKind(kind)),
        })
    }
}

impl Layout for InstructionRow {
    ghost columns = { 8 };
}

impl Record for InstructionRow {
    ghost TABLE = { Table.Instructions };

    const TABLE: Table = Table::Instructions;

    ghost decode = { instruction_row_of };

    ghost inside = { InstructionInside };

    fn decode(row: &Row<InstructionRow>) -> InstructionRow {
        InstructionRow {
            result: row.cell(1),
            span: row.optional(2),
            instruction: Instruction::try_from(row).unwrap(),
        }
    }

    ghost wide = { refl };

    ghost sound_inside = { λ b row s. s.2 };
}

impl<'r, 'a> From<&'r Row<'a, ManualMemoDependency>> for ManualMemoDependencyRoot {
    ghost from_gives = { λ row root. root ≡ root_of row.now };

    fn from(row: &'r Row<'a, ManualMemoDependency>) -> ManualMemoDependencyRoot {
        let root = row.cell(1);
        if row.flag(0) {
            ManualMemoDependencyRoot::Global(root)
        } else {
            ManualMemoDependencyRoot::NamedLocal(root)
        }
    }
}

impl Layout for ManualMemoDependency {
    ghost columns = { 4 };
}

impl Record for ManualMemoDependency {
    ghost TABLE = { Table.Declared };

    const TABLE: Table = Table::Declared;

    ghost decode = { declared_of };

    ghost inside = { DeclaredInside };

    fn decode(row: &Row<ManualMemoDependency>) -> ManualMemoDependency {
        ManualMemoDependency {
            root: ManualMemoDependencyRoot::from(row),
            path: row.part(2),
        }
    }

    ghost wide = { refl };

    ghost sound_inside = { λ b row s. s.1 };
}

impl Layout for Step {
    ghost columns = { 2 };
}

impl Record for Step {
    ghost TABLE = { Table.Steps };

    const TABLE: Table = Table::Steps;

    ghost decode = { step_of };

    ghost inside = { StepInside };

    fn decode(row: &Row<Step>) -> Step {
        Step {
            property: row.cell(0),
            optional: row.flag(1),
        }
    }

    ghost wide = { refl };

    ghost sound_inside = { λ b row s. s.0 };
}
