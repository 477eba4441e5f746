// The end of a line.
ghost use Rattle.std.specs.Prelude.{◌≡◌};
ghost use Rattle.p11_lines.specs.LineEnd.{without_cr};

/// A line without the CR at its end, if it has one there.
#[tactic(auto, unfolding(crate::specs::LineEnd::without_cr))]
pub fn without_return(line: &[u8]) -> &[u8]
    ensures { result.now ≡ without_cr line.now }
{
    let len = line.len();
    if len == 0 {
        return line;
    }
    if line[len - 1] == b'\r' {
        return &line[..len - 1];
    }
    line
}
