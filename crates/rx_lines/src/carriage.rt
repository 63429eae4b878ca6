// The CR before an LF.
ghost use Rattle.std.specs.Prelude.{◌≡◌, ◌≤◌, length, take};
ghost use Rattle.rx_lines.specs.Lines.{without_cr};

const CR: u8 = b'\r';

/// How many bytes a line has without the one CR that may stand at its end.
pub(crate) fn len_without_cr(line: &[u8]) -> usize
    ensures line { take result line.now ≡ without_cr line.now }
    ensures within { result ≤ length line.now }
{
    let len = line.len();
    if len > 0 && line[len - 1] == CR {
        len - 1
    } else {
        len
    }
}
