// Words in a text: 16 hexadecimal digits each, in lines. For programs that read lists of words.
// These functions ask their callers that the bytes are there, so that no user calls them.
ghost use Rattle.std.specs.Prelude.{◌≡◌, cond, ◌+◌, ◌≤◌, ◌<◌, length, MatchOption};
ghost use Rattle.words.specs.Text.{digit_value, all_digits, hex_value};

// The value of a hexadecimal digit.
#[tactic(auto, unfolding(crate::specs::Text::digit_value))]
fn digit_of(b: u8) -> Option<u64>
    ensures { MatchOption result (digit_value b ≡ 16) (λ d. (d ≡ digit_value b) × (d < 16)) }
{
    match b {
        b'0'..=b'9' => Some((b - b'0') as u64),
        b'a'..=b'f' => Some((b - b'a') as u64 + 10),
        b'A'..=b'F' => Some((b - b'A') as u64 + 10),
        _ => None,
    }
}

// The number that the 16 bytes from at on say, if each is a digit.
pub fn hex_at(line: &[u8], at: usize) -> Option<u64>
    requires { at + 16 ≤ length line.now }
    ensures { result ≡ cond (all_digits line.now at 16) (Some (hex_value line.now at 16)) None }
{
    let mut value: u64 = 0;
    for i in 0..16 {
        let d = digit_of(line[at + i])?;
        value = value * 16 + d;
    }
    Some(value)
}
