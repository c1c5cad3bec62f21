// Places of a name and of its content in one run of bytes.
ghost use Rattle.std.specs.Prelude.{◌≡◌, ◌+◌, ◌≤◌, ◌<◌, ℕ, length, None, IfSome, vec_len, vec_capacity};
ghost use Rattle.std.specs.List.{All, slice_range};
ghost use Rattle.std.specs.Option.{option_map};
ghost use Rattle.std.specs.VecDeque.{deque_len, deque_capacity};
ghost use Rattle.std.specs.FinMap as map;
ghost use Rattle.plc_outside.specs.Spans.{IsWithin, files_of};

use std::collections::VecDeque;

/// A name from `start` to `middle`, and its content from there to `end`.
#[derive(Clone, Copy)]
pub struct Span {
    pub start: usize,
    pub middle: usize,
    pub end: usize,
}

/// The newest span of a name.
pub fn newest(bytes: &[u8], spans: &VecDeque<Span>, name: &[u8]) -> Option<Span>
    requires { All (IsWithin (length bytes.now)) spans.now.items }
    ensures content { option_map (λ s. slice_range bytes.now s.middle s.end) result ≡ map.get (files_of bytes.now spans.now.items) name.now }
    ensures within { IfSome result (IsWithin (length bytes.now)) }
{
    for i in 0..spans.len() {
        let span = spans[i];
        if &bytes[span.start..span.middle] == name {
            return Some(span);
        }
    }
    None
}

/// Binds a name to a content, in room that is there.
pub fn bind(bytes: &mut Vec<u8>, spans: &mut VecDeque<Span>, name: &[u8], content: &[u8])
    requires room { vec_len bytes.old + length name.now + length content.now ≤ vec_capacity bytes.old }
    requires slot { deque_len spans.old < deque_capacity spans.old }
    requires within { All (IsWithin (vec_len bytes.old)) spans.old.items }
    ensures files { files_of bytes.new.items spans.new.items ≡ map.insert (files_of bytes.old.items spans.old.items) name.now content.now }
    ensures all_within { All (IsWithin (vec_len bytes.new)) spans.new.items }
    ensures len { vec_len bytes.new ≡ vec_len bytes.old + length name.now + length content.now }
    ensures capacity { vec_capacity bytes.old ≤ vec_capacity bytes.new }
    ensures used { deque_len spans.new ≡ deque_len spans.old + 1 }
    ensures slots { deque_capacity spans.old ≤ deque_capacity spans.new }
{
    let start = bytes.len();
    bytes.extend_from_slice(name).unwrap();
    let middle = bytes.len();
    bytes.extend_from_slice(content).unwrap();
    let end = bytes.len();
    spans.push_front(Span { start, middle, end }).unwrap();
}
