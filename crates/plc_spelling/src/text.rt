// Fronts of texts.
ghost use Rattle.std.specs.Prelude.{◌≡◌, ◌≤◌, ◌<◌, IsTrue, false, length, drop};
ghost use Rattle.std.specs.Char.{is_ascii_digit, is_ascii_alphabetic, is_digit, digit_value};
ghost use Rattle.std.specs.List.{prefix_len};
ghost use Rattle.std.specs.Str.{str_eq_ignore_ascii_case};
ghost use Rattle.plc_spelling.specs.Text as spec;
ghost use Rattle.plc_spelling.specs.Text.{IsGreatest};

/// Whether a byte is a space, a tab, a carriage return or a line feed.
pub fn is_blank(b: u8) -> bool
    ensures { result ≡ spec.is_blank b }
{
    b == b' ' || b == b'\t' || b == b'\r' || b == b'\n'
}

/// How many blanks stand at the front.
pub fn blank_run(text: &[u8]) -> usize
    ensures value { result ≡ prefix_len spec.is_blank text.now }
    ensures within { result ≤ length text.now }
{
    text.iter().take_while(|b| is_blank(**b)).count()
}

/// How many digits stand at the front.
pub fn digit_run(text: &[u8]) -> usize
    ensures value { result ≡ prefix_len is_ascii_digit text.now }
    ensures within { result ≤ length text.now }
{
    text.iter().take_while(|b| b.is_ascii_digit()).count()
}

/// How many letters stand at the front.
pub fn letter_run(text: &[u8]) -> usize
    ensures value { result ≡ prefix_len is_ascii_alphabetic text.now }
    ensures within { result ≤ length text.now }
{
    text.iter().take_while(|b| b.is_ascii_alphabetic()).count()
}

/// Whether two texts are the same but for the case of letters.
pub fn is_same(left: &[u8], right: &[u8]) -> bool
    ensures { result ≡ str_eq_ignore_ascii_case left.now right.now }
{
    left.eq_ignore_ascii_case(right)
}

/// Whether a text begins with these bytes, in letters of either case.
pub fn begins(front: &[u8], text: &[u8]) -> bool
    ensures value { result ≡ spec.begins front.now text.now }
    ensures within { IsTrue result → length front.now ≤ length text.now }
{
    front.len() <= text.len() && text[..front.len()].eq_ignore_ascii_case(front)
}

/// Whether a text begins with this byte.
pub fn begins_with(b: u8, text: &[u8]) -> bool
    ensures value { result ≡ spec.begins_with b text.now }
    ensures within { IsTrue result → 0 < length text.now }
{
    match text {
        [first, ..] => *first == b,
        [] => false,
    }
}

/// What stands behind the first bytes; nothing where there are no more.
pub fn behind(count: usize, text: &[u8]) -> &[u8]
    ensures { result.now ≡ drop count text.now }
{
    &text[count.min(text.len())..]
}

/// The value of a digit or a letter, and 36 of another byte.
pub fn digit_value(b: u8) -> u32
    ensures value { result ≡ digit_value b }
    ensures within { result ≤ 36 }
{
    char::from(b).to_digit(36).unwrap_or(36)
}

fn is_digit(base: u32, b: u8) -> bool
    ensures { result ≡ is_digit b base }
{
    digit_value(b) < base
}

/// How many bytes at the front are digits of a base with single separators between.
pub fn apart_size(base: u32, separator: u8, text: &[u8]) -> usize
    requires { is_digit separator base ≡ false }
    ensures { IsGreatest (spec.apart (λ b. is_digit b base) separator) text.now result }
{
    let mut size = 0;
    for (i, b) in text.iter().enumerate() {
        if is_digit(base, *b) {
            size = i + 1;
        } else if *b != separator || size == 0 || size < i {
            return size;
        }
    }
    size
}

/// Whether bytes are digits of a base with single separators between.
pub fn is_apart(base: u32, separator: u8, bytes: &[u8]) -> bool
    requires { is_digit separator base ≡ false }
    ensures { result ≡ spec.apart (λ b. is_digit b base) separator bytes.now }
{
    !bytes.is_empty() && apart_size(base, separator, bytes) == bytes.len()
}
