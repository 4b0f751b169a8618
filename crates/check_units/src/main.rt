// Checks one unit for each line of standard input, and prints one line for each.
#![tactic(auto)]

use std::io::{BufRead, BufReader, BufWriter, Write};
use std::process::ExitCode;
use unit_lines::ending::line_text;
use unit_lines::line::UnitLine;

fn run(rt: &HostRuntime) -> anyhow::Result<()> {
    let heap = rt.alloc();
    let mut input = BufReader::new(heap, rt.stdin())?;
    let mut output = BufWriter::new(heap, rt.stdout())?;
    let mut line = Vec::new(heap);
    let mut unit = UnitLine::new(heap);
    // Not by `split`, which makes each line anew: that takes half as much memory again, and twice the time where lines are short.
    for _ in 0..u64::MAX {
        line.clear();
        if input.read_until(b'\n', &mut line)? == 0 {
            break;
        }
        let outcome = unit.outcome(line_text(&line))?;
        writeln!(output, "{outcome}")?;
    }
    output.flush()?;
    Ok(())
}

fn main(rt: HostRuntime) -> ExitCode {
    match run(&rt) {
        Ok(()) => ExitCode::SUCCESS,
        Err(error) => {
            // Where the message can't be written either, the status still tells.
            let _ = eprintln!(rt; "check_units: {error}");
            ExitCode::FAILURE
        }
    }
}
