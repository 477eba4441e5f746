//! Lines of earlier dialogues.
ghost use Rattle.std.specs.Prelude.{◌≡◌};
ghost use Rattle.p11_host.specs.Hosts.{is_plain, is_typed, all_plain};

/// The most bytes of a line that is typed (decimal).
const MOST_BYTES: usize = 4096;

fn is_plain(byte: u8) -> bool
    ensures { result ≡ is_plain byte }
{
    b' ' <= byte && byte <= b'~'
}

#[tactic(auto, unfolding(crate::specs::Hosts::all_plain))]
fn all_plain(bytes: &[u8]) -> bool
    ensures { result ≡ all_plain bytes.now }
{
    let mut rest = bytes;
    while let [byte, behind @ ..] = rest {
        if !is_plain(*byte) {
            return false;
        }
        rest = behind;
    }
    true
}

/// Whether keys can give a line of an earlier dialogue: it has 1 to 4,096 bytes, all of them printing.
pub fn is_typed(line: &[u8]) -> bool
    ensures { result ≡ is_typed line.now }
{
    !line.is_empty() && line.len() <= MOST_BYTES && all_plain(line)
}
