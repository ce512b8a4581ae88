//! A line, and the cut into its words.

ghost use Rattle.std.specs.Prelude.{◌≡◌, ◌==◌, ◌∷◌, position};
ghost use Rattle.lines.specs.Line.{content_of, is_skipped, words, words_of};
ghost use Rattle.lines.specs.Taken.{headed, single, told_words, told_word};

/// The first word of a line, and what follows the space after it, if there is one.
#[derive(Clone, Copy)]
pub struct Words<'a> {
    pub first: &'a [u8],
    pub rest: Option<&'a [u8]>,
}

/// The line without the line feed that ends it.
pub fn content(line: &[u8]) -> &[u8]
    ensures { result.now ≡ content_of line.now }
{
    line.strip_suffix(b"\n").unwrap_or(line)
}

/// Empty lines and comments ask for nothing.
pub fn is_skipped(line: &[u8]) -> bool
    ensures { result ≡ is_skipped line.now }
{
    line.is_empty() || line.starts_with(b"#")
}

/// The word at the front of `line`, and the rest.
pub fn cut(line: &[u8]) -> Words<'_>
    ensures whole { words line.now ≡ result.first.now ∷ words_of result.rest }
{
    match first_space(line) {
        Some(space) => Words {
            first: &line[..space],
            rest: Some(&line[space + 1..]),
        },
        None => Words {
            first: line,
            rest: None,
        },
    }
}

/// Where the first space is.
fn first_space(line: &[u8]) -> Option<usize>
    ensures { result ≡ position (λ b. b == 32) line.now }
{
    line.iter().position(|b| *b == b' ')
}

/// The next word, where there is one.
pub fn next(rest: Option<&[u8]>) -> Option<Words<'_>>
    ensures answer { told_words result ≡ headed (words_of rest.entry) }
{
    rest.map(cut)
}

/// The next word, where it is the last.
pub fn last(rest: Option<&[u8]>) -> Option<&[u8]>
    ensures answer { told_word result ≡ single (words_of rest.entry) }
{
    let Words { first, rest } = next(rest)?;
    match rest {
        Some(_) => None,
        None => Some(first),
    }
}
