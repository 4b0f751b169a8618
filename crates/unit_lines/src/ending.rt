// The end of a line, as a file has it.
ghost use Rattle.std.specs.Prelude.{◌≡◌};
ghost use Rattle.unit_lines.specs.Ending.{without_last, line_text, IsTextOfLine};

fn without_last(text: &[u8], last: u8) -> &[u8]
    ensures { result.now ≡ without_last last text.now }
{
    text.strip_suffix(&[last]).unwrap_or(text)
}

// A line without its LF or CR LF.
pub fn line_text(line: &[u8]) -> &[u8]
    ensures text { result.now ≡ line_text line.now }
    ensures before_its_end { IsTextOfLine line.now result.now }
{
    without_last(without_last(line, b'\n'), b'\r')
}
