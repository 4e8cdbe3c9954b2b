//! The lines of a file, and the words of a line.

ghost use Rattle.std.specs.Prelude.{◌≡◌, ◌∷◌};
ghost use Rattle.std.specs.List.{after_first, before_first};
ghost use Rattle.std.specs.Option.{option_map_or};
ghost use Rattle.door_users.specs.Lines.{file_lines, is_space, rest_lines};

/// The first line, and the text after its end if there is one.
fn first_line(text: &str) -> (&str, Option<&str>)
    ensures { file_lines text.now ≡ result.0.now ∷ rest_lines result.1 }
{
    match text.split_once('\n') {
        Some((line, rest)) => (line, Some(rest)),
        None => (text, None),
    }
}

/// The lines of a text, from the first to the last. There is at least one, and it may be empty.
#[derive(Drop)]
pub(crate) struct FileLines<'a> {
    rest: Option<&'a str>,
}

impl<'a> FileLines<'a> {
    ghost use Rattle.door_users.specs.Lines.{lines_left};

    pub(crate) fn of(text: &'a str) -> FileLines<'a>
        ensures { lines_left result ≡ file_lines text.now }
    {
        FileLines { rest: Some(text) }
    }
}

impl<'a> Iterator for FileLines<'a> {
    ghost use Rattle.std.specs.Iterator.{YieldsFirstBy, item_count};
    ghost use Rattle.door_users.specs.Lines.{lines_left};

    type Item = &'a str;

    ghost next_gives = { YieldsFirstBy (λ x. x.now) lines_left };

    ghost remaining = { item_count lines_left };

    fn next(&mut self) -> Option<&'a str> {
        let (line, rest) = first_line(self.rest?);
        self.rest = rest;
        Some(line)
    }
}

/// What stands before the first space, and after it; all and nothing where there is no space.
pub(crate) fn word_of(text: &str) -> (&str, &str)
    ensures word { result.0.now ≡ before_first is_space text.now }
    ensures rest { result.1.now ≡ after_first is_space text.now }
{
    text.split_once(' ').unwrap_or((text, ""))
}
