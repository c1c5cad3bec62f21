// Comments, which nest or don't.
ghost use Rattle.std.specs.Prelude.{◌≡◌, true, None, if◌then◌else◌};
ghost use Rattle.plc_lex.specs.Comments as spec;

/// Whether a comment begins here.
pub fn opens(text: &[u8]) -> bool
    ensures { result ≡ spec.opens text.now }
{
    matches!(text, [b'(', b'*', ..])
}

/// Whether a comment ends here.
fn closes(text: &[u8]) -> bool
    ensures { result ≡ spec.closes text.now }
{
    matches!(text, [b'*', b')', ..])
}

/// How many bytes the comment has that begins here, where it ends.
pub fn comment_size(nested: bool, text: &[u8]) -> Option<usize>
    requires { spec.opens text.now ≡ true }
    ensures { result ≡ spec.comment nested text.now }
{
    let mut size = 2;
    let mut around: usize = 0;
    while size < text.len() {
        let rest = &text[size..];
        if closes(rest) {
            size += 2;
            if around == 0 {
                return Some(size);
            }
            around -= 1;
        } else if nested && opens(rest) {
            size += 2;
            around += 1;
        } else {
            size += 1;
        }
    }
    None
}

/// How many bytes the comment has that begins here, where one begins and ends.
pub fn comment_at(nested: bool, text: &[u8]) -> Option<usize>
    ensures { result ≡ (if spec.opens text.now then spec.comment nested text.now else None) }
{
    if opens(text) {
        comment_size(nested, text)
    } else {
        None
    }
}
