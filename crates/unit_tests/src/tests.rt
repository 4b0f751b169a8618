use std::process::Abort;
use std::test::Fail;
use tables::parts::Part;
use unit::check::check as check_unit;
use unit::checked::CheckedUnit;
use unit::refusal::Refusal;
use unit::rows::{BasicBlock, Function, Identifier, Instruction, InstructionRow, Place, Terminal};
use unit::table::Table;
use unit::unit_tables::Tables;
use unit_lines::error::LineError;
use unit_lines::line::UnitLine;
use unit_lines::outcome::Outcome;

// `t = props.a`, and then a use of `t`.
const WORKED: &[u8] =
    b"61 0000000001000000 0100000000000000ffffffff0000000000000000ffffffff0000000000000000ffffffff 00000000070000000000000001000000ffffffff00000000 00000000010000000000000001000000 00000000000000000000000002000000000000000000000000000000000000000000000000000000 - 0800000001000000ffffffff00000000000000000000000000000000000000000f00000002000000ffffffff0000000000000000000000000100000001000000 - -";

fn part(first: u32, count: u32) -> Part {
    Part { first, count }
}

// The names, by their words and identifiers.
fn reads_names(rt: &impl Abort, unit: &CheckedUnit) {
    assert!(rt; unit.rows(Table::Words) == 1);
    assert!(rt; unit.word(0) == b"a".as_slice());
    assert!(rt; unit.rows(Table::Identifiers) == 3);
    let props = unit.read::<Identifier>(0);
    assert!(rt; props.named && !props.use_ref);
    assert_eq!(rt; props.shape, None);
    assert!(rt; unit.rows(Table::Places) == 2);
    let place = unit.read::<Place>(0);
    assert_eq!(rt; place.identifier, 0);
    assert_eq!(rt; place.span, Some(7));
    assert!(rt; !place.spread);
    assert_eq!(rt; unit.read::<Place>(1).span, None);
}

fn reads_code(rt: &impl Abort, unit: &CheckedUnit) -> Result<(), Fail> {
    assert!(rt; unit.rows(Table::Functions) == 1);
    let function = unit.read::<Function>(0);
    assert_eq!(rt; function.params, part(0, 1));
    assert_eq!(rt; function.blocks, part(0, 1));
    assert!(rt; unit.rows(Table::Blocks) == 1);
    let block = unit.read::<BasicBlock>(0);
    assert_eq!(rt; block.instructions, part(0, 2));
    assert!(rt; matches!(block.terminal, Terminal::Other));
    assert!(rt; unit.rows(Table::Instructions) == 2);
    let load = unit.read::<InstructionRow>(0);
    assert_eq!(rt; load.result, 1);
    assert!(rt;
        matches!(
            load.instruction,
            Instruction::PropertyLoad {
                object: 0,
                property: Some(0)
            }
        )
    );
    match unit.read::<InstructionRow>(1).instruction {
        Instruction::Other { lvalues, operands } => {
            assert_eq!(rt; lvalues, part(0, 0));
            assert_eq!(rt; operands, part(1, 1));
            Ok(())
        }
        _ => Err(Fail::new("the second instruction has another kind")),
    }
}

fn reads_worked(rt: &impl Abort, tables: Tables<&[u8]>) -> Result<(), Fail> {
    let mut unit = CheckedUnit::empty();
    match check_unit(tables, &mut unit) {
        Ok(()) => {
            reads_names(rt, &unit);
            reads_code(rt, &unit)
        }
        Err(_) => Err(Fail::new("the worked unit is refused")),
    }
}

#[test]
fn rows_are_read(rt: HostRuntime) -> Result<(), Fail> {
    let mut line = UnitLine::new(rt.alloc());
    line.read(WORKED)?;
    reads_worked(&rt, line.tables())
}

// A refused unit leaves the place as it was.
fn stays_empty(rt: &impl Abort, tables: Tables<&[u8]>) {
    let mut unit = CheckedUnit::empty();
    let answer = check_unit(tables, &mut unit);
    assert_eq!(rt;
        answer,
        Err(Refusal::Outside {
            table: Table::Places,
            row: 1,
        })
    );
    assert_eq!(rt; unit.rows(Table::Places), 0);
}

#[test]
fn a_refusal_is_told(rt: HostRuntime) -> Result<(), Fail> {
    let mut line = UnitLine::new(rt.alloc());
    line.read(
        b"- - 0100000000000000ffffffff 000000000700000000000000010000000000000000000000 - - - - - -",
    )?;
    stays_empty(&rt, line.tables());
    Ok(())
}

#[test]
fn an_unreadable_line_leaves_no_table(rt: HostRuntime) -> Result<(), Fail> {
    let mut line = UnitLine::new(rt.alloc());
    line.read(WORKED)?;
    assert_eq!(rt; line.read(b"61 00000000"), Err(LineError::Unreadable));
    assert!(rt; line.tables().word_bytes.is_empty());
    Ok(())
}

#[test]
fn a_line_has_its_outcome(rt: HostRuntime) -> Result<(), Fail> {
    let mut line = UnitLine::new(rt.alloc());
    assert_eq!(rt; line.outcome(WORKED)?, Outcome::Accepted);
    assert_eq!(rt; line.outcome(b"61 00000000")?, Outcome::Unreadable);
    Ok(())
}
