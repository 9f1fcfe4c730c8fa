//! A text without what it begins or ends with.
ghost use Rattle.std.specs.Prelude.{◌≡◌, ◌≢◌, ◌<◌, ℕ, List, ◌++◌, MatchOption, true};
ghost use Rattle.store_names.specs.Texts.{IsAroundFirst, IsAroundLast, lacks};

/// What is after a text's beginning; none where it begins otherwise.
pub(crate) fn after<'t>(text: &'t str, beginning: &str) -> Option<&'t str>
    ensures { MatchOption result ((rest : List ℕ) → text.now ≢ beginning.now ++ rest) (λ rest. text.now ≡ beginning.now ++ rest.now) }
{
    text.strip_prefix(beginning)
}

/// What is before a text's end; none where it ends otherwise.
pub(crate) fn until<'t>(text: &'t str, end: &str) -> Option<&'t str>
    ensures { MatchOption result ((rest : List ℕ) → text.now ≢ rest ++ end.now) (λ rest. text.now ≡ rest.now ++ end.now) }
{
    text.strip_suffix(end)
}

/// What is before the first of a character in a text, and after it; none where the text hasn't the character.
pub(crate) fn around_first<'t>(text: &'t str, mark: char) -> Option<(&'t str, &'t str)>
    requires { mark < 128 }
    ensures { MatchOption result (lacks mark text.now ≡ true) (λ parts. IsAroundFirst mark text.now parts.0.now parts.1.now) }
{
    text.split_once(mark)
}

/// What is before the last of a character in a text, and after it; none where the text hasn't the character.
pub(crate) fn around_last<'t>(text: &'t str, mark: char) -> Option<(&'t str, &'t str)>
    requires { mark < 128 }
    ensures { MatchOption result (lacks mark text.now ≡ true) (λ parts. IsAroundLast mark text.now parts.0.now parts.1.now) }
{
    text.rsplit_once(mark)
}
