// Lines of a text, a line's key, and the value after it.
ghost use Rattle.std.specs.Prelude.{◌≡◌, ◌+◌, ◌≤◌, ◌==◌, drop, length, position};
ghost use Rattle.text.specs.Lines.{line_length, has_key, value_of};

// How many bytes stand before a text's first line feed.
fn feed(text: &[u8]) -> Option<usize>
    ensures { result ≡ position (λ b. b == 10) text.now }
{
    text.iter().position(|b| *b == b'\n')
}

// How many bytes the first line of a text has, its line feed among them.
fn line_length(text: &[u8]) -> usize
    ensures value { result ≡ line_length text.now }
    ensures bound { result ≤ length text.now }
{
    match feed(text) {
        Some(before) => before + 1,
        None => text.len(),
    }
}

// The end of the line that starts at a place: one past its line feed, or the text's end.
pub fn line_end(text: &[u8], at: usize) -> usize
    ensures { result ≡ at + line_length (drop at text.now) }
{
    match text.get(at..) {
        Some(rest) => at + line_length(rest),
        None => at,
    }
}

// Whether a line begins with a key and an equals sign; the key is compared byte for byte.
pub fn has_key(line: &[u8], key: &[u8]) -> bool
    ensures { result ≡ has_key key.now line.now }
{
    let Some(rest) = line.strip_prefix(key) else {
        return false;
    };
    match rest {
        [b, ..] => *b == b'=',
        [] => false,
    }
}

// The value after `key=`, as a part of the caller's line; nothing where the line doesn't begin so.
pub fn value<'a, 'k>(line: &'a [u8], key: &'k [u8]) -> &'a [u8]
    ensures { result.now ≡ value_of key.now line.now }
{
    if !has_key(line, key) {
        return &[];
    }
    &line[key.len() + 1..]
}
