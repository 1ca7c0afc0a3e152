//! The words of the command line.

ghost use Rattle.std.specs.Prelude.{◌≡◌, ◌<◌, ◌≤◌, ◌^◌, length, map, string_bytes, codes, nat_eq, IfSome};
ghost use Rattle.std.specs.Cmp.Lexicographic.{pointwise};
ghost use Rattle.dag_run.specs.Words.{dashes_at, split_of};

/// Where the words `LOG [REMOTE]... -- MODE ..` have their parts.
#[derive(Clone, Copy, PartialEq, Eq, Debug)]
pub struct Split {
    /// The place of the log's path.
    pub log: u32,
    /// The place of the first remote, where there is one before the `--`.
    pub remotes: u32,
    /// The place of the first word behind the `--`.
    pub rest: u32,
}

/// Whether the word is `--`.
fn is_dashes(word: &String) -> bool
    ensures { result ≡ pointwise nat_eq (string_bytes word.now) (codes "--") }
{
    word.as_str() == "--"
}

/// The place of the first word `--`.
fn dashes(words: &[String]) -> Option<usize>
    ensures place { result ≡ dashes_at (map string_bytes words.now) }
    ensures bound { IfSome result (λ place. place < length words.now) }
{
    let mut rest = words;
    let mut place = 0;
    'words: while let Some((word, more)) = rest.split_first() {
        if is_dashes(word) {
            return Some(place);
        }
        place += 1;
        rest = more;
    }
    None
}

/// Splits the words behind the program's own name at the first `--`. `None` exactly where no word is `--` or the first
/// one is.
pub fn split_words(words: &[String]) -> Option<Split>
    requires { length words.now < 2 ^ 32 }
    ensures parts { result ≡ split_of (dashes_at (map string_bytes words.now)) }
    ensures within { IfSome result (λ split. split.rest ≤ length words.now) }
{
    match dashes(words) {
        None | Some(0) => None,
        Some(place) => Some(Split {
            log: 0,
            remotes: 1,
            rest: place as u32 + 1,
        }),
    }
}
