// Tables of subcommands and their options.

/// The values that an option may have. Each value has a number.
#[derive(Clone, Copy)]
pub(crate) enum Values<'a> {
    /// The option takes a number, from the first to the second.
    Within(u64, u64),
    /// The option takes one of these words. The number of a word is its place in the list, from 0.
    Among(&'a [&'a str]),
    /// The option takes no value. Its number is 1 if it is given, and otherwise its default.
    Switch,
}

/// An option of a subcommand: `--NAME VALUE`, or `--NAME` if it takes no value.
#[derive(Clone, Copy)]
pub(crate) struct ValueOption<'a> {
    /// The name, without its hyphens.
    pub(crate) name: &'a str,
    /// The description of the option in the help.
    pub(crate) help: &'a str,
    /// The values that it may have.
    pub(crate) values: Values<'a>,
    /// The number if the option is left out. An option without a default is required.
    pub(crate) default: Option<u64>,
}

/// A subcommand of a program.
#[derive(Clone, Copy)]
pub(crate) struct Subcommand<'a> {
    /// The word that names it.
    pub(crate) name: &'a str,
    /// The description of the subcommand in the help.
    pub(crate) about: &'a str,
    /// Its options.
    pub(crate) options: &'a [ValueOption<'a>],
    /// Whether it takes numbers of calls, `[CALL]..`, after its options.
    pub(crate) takes_calls: bool,
}
