//! A line without the blanks at its ends.
ghost use Rattle.std.specs.Prelude.{◌≡◌, ◌-◌, not, take, length};
ghost use Rattle.std.specs.List.{position, suffix_len};
ghost use Rattle.frz_words.specs.Words.{is_blank as is_blank_byte};
ghost use Rattle.frz_commands_inquiry.specs.Trimmed.{trimmed as trimmed_line, without_end as end_dropped, without_front as front_dropped};

/// Is the byte a space, a tab or a carriage return?
fn is_blank(b: u8) -> bool
    ensures { result ≡ is_blank_byte b }
{
    matches!(b, b' ' | b'\t' | b'\r')
}

fn first_kept(line: &[u8]) -> Option<usize>
    ensures { result ≡ position (λ b. not (is_blank_byte b)) line.now }
{
    line.iter().position(|b| !is_blank(*b))
}

/// The line from its first byte on that is no blank.
fn without_front(line: &[u8]) -> &[u8]
    ensures { result.now ≡ front_dropped line.now }
{
    match first_kept(line) {
        Some(start) => &line[start..],
        None => &[],
    }
}

/// The line up to its last byte that is no blank.
fn without_end(line: &[u8]) -> &[u8]
    ensures { result.now ≡ end_dropped line.now }
{
    let mut kept = line.len();
    while kept > 0 && is_blank(line[kept - 1]) {
        kept -= 1;
    }
    &line[..kept]
}

/// The line without the blanks at its ends.
pub fn trimmed(line: &[u8]) -> &[u8]
    ensures { result.now ≡ trimmed_line line.now }
{
    without_end(without_front(line))
}
