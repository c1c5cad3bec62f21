// The walk over a text.
ghost use Rattle.std.specs.Prelude.{◌≡◌, ◌≤◌, ◌<◌, ◌||◌, Bool, true, false, None, IfOk, length, take, drop, slice_index, if◌then◌else◌};
ghost use Rattle.plc_base.specs.declared.refusal.Rule.TheVariants as rule;
ghost use Rattle.plc_base.specs.declared.kind.Kind.TheVariants as kind_is;
ghost use Rattle.plc_lex.specs.Comments.{comment};
ghost use Rattle.plc_lex.specs.Comments as comments;
ghost use Rattle.plc_spelling.specs.Spelling.{first_kind};
ghost use Rattle.plc_spelling.specs.Spelling as spelling;
ghost use Rattle.plc_spelling.specs.Text as text_of;
ghost use Rattle.plc_lex.specs.Tokens as spec;
ghost use Rattle.plc_lex.specs.Tokens.{HasRoom, tokens_from};

use crate::comments::{comment_at, opens};
use plc_base::{Kind, OutOfMemory, Place, Rule};
use plc_spelling::{first_token, is_blank};
use plc_tokens::sort::sort_of;
use plc_tokens::tokens::start;
use plc_tokens::{Token, Tokens};
use std::alloc::Global;

/// What is left of a text, where it begins, and whether a line feed stands between it and the token before.
#[derive(Clone, Copy)]
struct Cursor<'a> {
    rest: &'a [u8],
    place: Place,
    fresh: bool,
}

/// The place after a byte.
fn past(b: u8, place: Place) -> Place
    requires { HasRoom place 1 }
    ensures { result ≡ spec.past b place }
{
    if b == b'\n' {
        Place {
            line: place.line + 1,
            col: 1,
            ..place
        }
    } else {
        Place {
            col: place.col + 1,
            ..place
        }
    }
}

/// The place after these bytes.
fn past_all(bytes: &[u8], mut place: Place) -> Place
    requires { HasRoom place (length bytes.now) }
    ensures { result ≡ spec.past_all bytes.now place }
{
    for b in bytes {
        place = past(*b, place);
    }
    place
}

/// Past the blanks that stand here.
fn skip_blanks<'a>(cursor: Cursor<'a>) -> Cursor<'a>
    requires { HasRoom cursor.place (length cursor.rest.now) }
    ensures tokens { (nested : Bool) → tokens_from nested cursor.entry.rest.now cursor.entry.place cursor.entry.fresh 0 ≡ tokens_from nested result.rest.now result.place result.fresh 0 }
    ensures no_blank { 0 < length result.rest.now → text_of.is_blank (slice_index result.rest.now 0) ≡ false }
    ensures room { HasRoom result.place (length result.rest.now) }
    ensures within { length result.rest.now ≤ length cursor.entry.rest.now }
{
    let Cursor {
        rest,
        mut place,
        mut fresh,
    } = cursor;
    for i in 0..rest.len() {
        let b = rest[i];
        if !is_blank(b) {
            return Cursor {
                rest: &rest[i..],
                place,
                fresh,
            };
        }
        place = past(b, place);
        fresh = fresh || b == b'\n';
    }
    Cursor {
        rest: &[],
        place,
        fresh,
    }
}

/// Whether a line feed is among these bytes.
fn has_break(bytes: &[u8]) -> bool
    ensures { result ≡ spec.has_break bytes.now }
{
    bytes.iter().any(|b| *b == b'\n')
}

/// Past a comment of so many bytes.
fn after_comment<'a>(cursor: Cursor<'a>, size: usize) -> Cursor<'a>
    requires room { HasRoom cursor.place (length cursor.rest.now) }
    requires within { size ≤ length cursor.rest.now }
    ensures rest { result.rest.now ≡ drop size cursor.entry.rest.now }
    ensures place { result.place ≡ spec.past_all (take size cursor.entry.rest.now) cursor.entry.place }
    ensures fresh { result.fresh ≡ (cursor.entry.fresh || spec.has_break (take size cursor.entry.rest.now)) }
    ensures room { HasRoom result.place (length result.rest.now) }
{
    let comment = &cursor.rest[..size];
    Cursor {
        rest: &cursor.rest[size..],
        place: past_all(comment, cursor.place),
        fresh: cursor.fresh || has_break(comment),
    }
}

/// Past the blanks and the comments that stand here. `nested`: comments nest.
fn skip_to_token<'a>(cursor: Cursor<'a>, nested: bool) -> Cursor<'a>
    requires { HasRoom cursor.place (length cursor.rest.now) }
    ensures tokens { tokens_from nested cursor.entry.rest.now cursor.entry.place cursor.entry.fresh 0 ≡ tokens_from nested result.rest.now result.place result.fresh 0 }
    ensures no_blank { 0 < length result.rest.now → text_of.is_blank (slice_index result.rest.now 0) ≡ false }
    ensures no_comment { (if comments.opens result.rest.now then comment nested result.rest.now else None) ≡ None }
    ensures room { HasRoom result.place (length result.rest.now) }
    ensures within { length result.rest.now ≤ length cursor.entry.rest.now }
{
    let mut found = skip_blanks(cursor);
    while let Some(size) = comment_at(nested, found.rest) {
        found = skip_blanks(after_comment(found, size));
    }
    found
}

/// The kind and the length of the token here, before which nothing is left to skip. So a comment
/// that begins here has no end.
fn token_here(alloc: Global, text: &[u8]) -> Result<(Kind, usize), OutOfMemory>
    ensures { IfOk result (λ x. x ≡ (if comments.opens text.now then (kind_is.Bad rule.L2, 0) else (first_kind text.now, spelling.size text.now))) }
{
    if opens(text) {
        Ok((Kind::Bad(Rule::L2), 0))
    } else {
        first_token(alloc, text)
    }
}

/// Whether a token of this kind ends the list.
fn ends(kind: &Kind) -> bool
    ensures { result ≡ spec.ends kind.now }
{
    matches!(kind, Kind::End | Kind::Bad(_))
}

/// The token of this kind and so many bytes that stands here.
fn token_of(kind: Kind, size: usize, cursor: Cursor) -> Token
    requires room { HasRoom cursor.place (length cursor.rest.now) }
    requires within { spec.ends kind ≡ false → size ≤ length cursor.rest.now }
    requires some { spec.ends kind ≡ false → 0 < size }
    ensures { result ≡ spec.token kind (take size cursor.entry.rest.now) cursor.entry.place cursor.entry.fresh }
{
    let place = cursor.place;
    let last = if ends(&kind) {
        place
    } else {
        past_all(&cursor.rest[..size - 1], place)
    };
    Token {
        sort: sort_of(&kind),
        kind,
        place,
        last: (last.line, last.col),
        fresh: cursor.fresh,
    }
}

/// Past a token of so many bytes.
fn after_token<'a>(cursor: Cursor<'a>, size: usize) -> Cursor<'a>
    requires room { HasRoom cursor.place (length cursor.rest.now) }
    requires some { 0 < size }
    requires within { size ≤ length cursor.rest.now }
    ensures rest { result.rest.now ≡ drop size cursor.entry.rest.now }
    ensures place { result.place ≡ spec.numbered (spec.past_all (take size cursor.entry.rest.now) cursor.entry.place) }
    ensures fresh { result.fresh ≡ false }
    ensures room { HasRoom result.place (length result.rest.now) }
{
    let place = past_all(&cursor.rest[..size], cursor.place);
    Cursor {
        rest: &cursor.rest[size..],
        place: Place {
            token: place.token + 1,
            ..place
        },
        fresh: false,
    }
}

/// The tokens of a text of at most 4 MiB. `nested`: comments nest.
pub fn lex(alloc: Global, text: &[u8], file: u32, nested: bool) -> Result<Tokens, OutOfMemory>
    requires { length text.now ≤ 4194304 }
    ensures { IfOk result (λ tokens. tokens ≡ spec.lexed text.now file nested) }
{
    let mut tokens = Vec::new(alloc);
    let mut cursor = Cursor {
        rest: text,
        place: start(file),
        fresh: false,
    };
    loop {
        let found = skip_to_token(cursor, nested);
        let (kind, size) = token_here(alloc, found.rest)?;
        let last = ends(&kind);
        tokens.push(token_of(kind, size, found))?;
        if last {
            return Ok(Tokens::from_vec(tokens));
        }
        cursor = after_token(found, size);
    }
}
