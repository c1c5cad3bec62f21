//! The words of a command line.
ghost use Rattle.std.specs.Prelude.{◌≡◌, map, string_bytes};
ghost use Rattle.std.specs.Option.{option_map};
ghost use Rattle.plc_top.specs.Words.{form, is_file};

/// Whether a word names a file.
fn names_file(word: &[u8]) -> bool
    ensures { result ≡ is_file word.now }
{
    !word.starts_with(b"-") && word != b"run".as_slice() && word != b"sample".as_slice()
}

/// The file to compile, where the words are those of a compile.
pub fn file_of(words: &[String]) -> Option<&str>
    ensures { option_map (λ word. word.now) result ≡ form (map string_bytes words.now) }
{
    match words {
        [word] => {
            if names_file(word.as_bytes()) {
                Some(word.as_str())
            } else {
                None
            }
        }
        _ => None,
    }
}
