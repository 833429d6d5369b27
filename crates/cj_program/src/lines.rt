// Texts that are taken apart.
ghost use Rattle.std.specs.Prelude.{◌≡◌, ◌++◌, ◌<◌, IfSome, codes, length};

/// A text up to its first blank, and what follows that.
pub(crate) fn cut_blank(text: &str) -> Option<(&str, &str)>
    ensures { IfSome result (λ p. text.now ≡ p.0.now ++ (codes " " ++ p.1.now)) }
{
    text.split_once(' ')
}

/// The first line of a text, and what follows its end.
pub(crate) fn cut_line(text: &str) -> Option<(&str, &str)>
    ensures parts { IfSome result (λ p. text.now ≡ p.0.now ++ (codes "\n" ++ p.1.now)) }
    ensures shorter { IfSome result (λ p. length p.1.now < length text.now) }
{
    text.split_once('\n')
}

/// What follows these words, if the text begins with them.
pub(crate) fn after<'a>(text: &'a str, words: &str) -> Option<&'a str>
    ensures { IfSome result (λ rest. text.now ≡ words.now ++ rest.now) }
{
    let (first, rest) = text.split_at_checked(words.len())?;
    if first == words { Some(rest) } else { None }
}
