//! The tables of arguments by which commands are defined, and the arguments that several commands have, as `--code` with the codes' names.
use clap::{Arg, ArgAction, Command as Definition};
use lrc_code::Code;
use std::alloc::{AllocError, Global};

/// What an argument takes.
#[derive(Clone, Copy)]
pub(crate) enum Form {
    /// A word that has to be given.
    Word,
    /// One or more words.
    Words,
    /// Any number of words.
    AnyWords,
    /// An option with a text.
    Text,
    /// An option with one of these texts.
    Choice(&'static [&'static str]),
    /// An option without a value.
    Flag,
}

/// A row of such a table.
#[derive(Clone, Copy)]
pub(crate) struct Argument {
    /// Its name, which an option has behind two hyphens.
    pub(crate) id: &'static str,
    /// The letter that an option has too.
    pub(crate) short: Option<char>,
    pub(crate) form: Form,
    /// What help calls its value; a flag has none.
    pub(crate) value: &'static str,
    pub(crate) default: Option<&'static str>,
    pub(crate) help: &'static str,
}

/// A word that has to be given.
pub(crate) const WORD: Argument = Argument {
    id: "",
    short: None,
    form: Form::Word,
    value: "",
    default: None,
    help: "",
};

/// An option with a text.
pub(crate) const TEXT: Argument = Argument {
    form: Form::Text,
    ..WORD
};

/// An option without a value.
pub(crate) const FLAG: Argument = Argument {
    form: Form::Flag,
    ..WORD
};

/// The folder of a store.
pub(crate) const STORE: Argument = Argument {
    id: "store",
    value: "STORE",
    help: "Folder of the fragments",
    ..WORD
};

const CODES: &[&str] = &["6-2-2", "12-2-2"];

/// The code of a store that is there.
pub(crate) const CODE: Argument = Argument {
    id: "code",
    form: Form::Choice(CODES),
    value: "CODE",
    help: "The store's code, if the places don't say it",
    ..TEXT
};

/// The option by which links are followed.
pub(crate) const FOLLOW: Argument = Argument {
    id: "follow-links",
    help: "Follow links below STORE, also to other folders",
    ..FLAG
};

/// The option by which root works in folders that others may write into.
pub(crate) const TRUST: Argument = Argument {
    id: "trust-writers",
    help: "As root, work in folders that other users may write into",
    ..FLAG
};

/// The option by which folders are written into at which no disk is mounted.
pub(crate) const UNMOUNTED: Argument = Argument {
    id: "allow-unmounted",
    help: "Write also where no disk is mounted, though at most other folders one is",
    ..FLAG
};

/// The option by which neither progress nor a summary is shown.
pub(crate) const QUIET: Argument = Argument {
    id: "quiet",
    short: Some('q'),
    help: "Show no progress and no last line",
    ..FLAG
};

/// The definition of a command with the arguments of some tables, in their order.
pub(crate) fn defined<'a>(
    alloc: Global,
    name: &'static str,
    about: &'static str,
    tables: &[&'static [Argument]],
) -> Result<Definition<'a>, AllocError> {
    let mut definition = Definition::new(alloc, name).about(about);
    for table in tables {
        for argument in *table {
            definition = definition.arg(argument.definition(alloc))?;
        }
    }
    Ok(definition)
}

impl Argument {
    /// Its definition.
    fn definition<'a>(&self, alloc: Global) -> Arg<'a> {
        let mut arg = self.of_form(alloc).help(self.help);
        if let Some(letter) = self.short {
            arg = arg.short(letter);
        }
        if let Some(text) = self.default {
            arg = arg.default_value(text);
        }
        arg
    }

    /// Its name and what it takes.
    fn of_form<'a>(&self, alloc: Global) -> Arg<'a> {
        let arg = Arg::new(alloc, self.id);
        match self.form {
            Form::Word => arg.required(true).value_name(self.value),
            Form::Words => {
                let word = arg.required(true).value_name(self.value);
                word.action(ArgAction::Append)
            }
            Form::AnyWords => arg.value_name(self.value).action(ArgAction::Append),
            Form::Text => arg.long(self.id).value_name(self.value),
            Form::Choice(texts) => arg.long(self.id).value_name(self.value).value_parser(texts),
            Form::Flag => arg.long(self.id).action(ArgAction::SetTrue),
        }
    }
}

/// The code of a name that the parser let pass.
pub(crate) fn code_of(name: Option<&str>) -> Option<Code> {
    Code::parse(name?.as_bytes())
}
