//! Lines and words of a mail text.
ghost use Rattle.std.specs.Prelude.{◌≡◌, ◌+◌, ◌<◌, ◌≤◌, ◌∷◌, ◌++◌, length};
ghost use Rattle.std.specs.List.{prefix_len};
ghost use Rattle.std.specs.Str.{str_eq_ignore_ascii_case};
ghost use Rattle.mail_model.specs.Lines as text;

use memchr::memchr;

/// How many bytes stand before the first such byte, or in all.
#[tactic(auto, unfolding(mail_model::specs::Lines::size_before))]
pub fn find(byte: u8, bytes: &[u8]) -> usize
    ensures value { result ≡ text.size_before byte bytes.now }
    ensures within { result ≤ length bytes.now }
{
    match memchr(byte, bytes) {
        Some(at) => at,
        None => bytes.len(),
    }
}

/// What stands before the first such byte; all where there is none.
pub fn before(byte: u8, bytes: &[u8]) -> &[u8]
    ensures { result.now ≡ text.before byte bytes.now }
{
    let (front, _) = bytes.split_at(find(byte, bytes));
    front
}

/// What stands behind the first such byte; nothing where there is none.
pub fn behind(byte: u8, bytes: &[u8]) -> &[u8]
    ensures { result.now ≡ text.behind byte bytes.now }
{
    let (_, rest) = bytes.split_at((find(byte, bytes) + 1).min(bytes.len()));
    rest
}

/// The first line with its end, and the bytes behind it.
pub fn split_line(bytes: &[u8]) -> (&[u8], &[u8])
    requires { 0 < length bytes.now }
    ensures lines { text.lines bytes.now ≡ result.0.now ∷ text.lines result.1.now }
    ensures parts { bytes.now ≡ result.0.now ++ result.1.now }
    ensures whole { length result.0.now + length result.1.now ≡ length bytes.now }
    ensures progress { 0 < length result.0.now }
{
    let size = (find(b'\n', bytes) + 1).min(bytes.len());
    bytes.split_at(size)
}

/// A line without its end.
#[tactic(auto, unfolding(mail_model::specs::Lines::text_of))]
pub fn without_end(line: &[u8]) -> &[u8]
    ensures { result.now ≡ text.text_of line.now }
{
    let end = if line.ends_with(b"\r\n") {
        2
    } else if line.ends_with(b"\n") {
        1
    } else {
        0
    };
    &line[..line.len() - end]
}

/// Whether it is a space or a tab.
pub fn is_blank(byte: u8) -> bool
    ensures { result ≡ text.is_blank byte }
{
    byte == b' ' || byte == b'\t'
}

/// How many blanks the text begins with.
pub fn count_blanks(bytes: &[u8]) -> usize
    ensures value { result ≡ prefix_len text.is_blank bytes.now }
    ensures within { result ≤ length bytes.now }
{
    for (i, b) in bytes.iter().enumerate() {
        if !is_blank(*b) {
            return i;
        }
    }
    bytes.len()
}

/// The text without the blanks around it.
pub fn trim(bytes: &[u8]) -> &[u8]
    ensures { result.now ≡ text.trimmed bytes.now }
{
    let (_, rest) = bytes.split_at(count_blanks(bytes));
    let mut end = rest.len();
    while end > 0 && is_blank(rest[end - 1]) {
        end -= 1;
    }
    &rest[..end]
}

/// Whether two texts are the same; letters in either case.
pub fn same_word(word: &[u8], bytes: &[u8]) -> bool
    ensures { result ≡ str_eq_ignore_ascii_case bytes.now word.now }
{
    bytes.eq_ignore_ascii_case(word)
}

/// Whether the text, without the blanks around it, is this word; letters in either case.
#[tactic(auto, unfolding(mail_model::specs::Lines::is_word))]
pub fn is_word(word: &[u8], bytes: &[u8]) -> bool
    ensures { result ≡ text.is_word word.now bytes.now }
{
    same_word(word, trim(bytes))
}

/// Whether the line is this mark, and then only blanks.
#[tactic(auto, unfolding(mail_model::specs::Lines::is_mark))]
pub fn is_mark(mark: &[u8], line: &[u8]) -> bool
    ensures { result ≡ text.is_mark mark.now line.now }
{
    let line = without_end(line);
    if !line.starts_with(mark) {
        return false;
    }
    let (_, rest) = line.split_at(mark.len());
    count_blanks(rest) == rest.len()
}
