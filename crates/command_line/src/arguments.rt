//! The arguments of a command: its options, wherever they are, and its other words in their order.

ghost use Rattle.std.specs.Prelude.{◌≡◌, ◌≢◌, [], None, Some, IfErr, IfOk, OnOk, find, is_some, map, option_map, string_bytes};
ghost use Rattle.command_line.specs.Arguments.{after, arguments_after, arguments_of, body_of, first_given, given_as, given_by, given_option, has_value, is_flag, is_given, is_given_as, may_have_value, next_reading, nothing_read, option_name, plain_arguments, plain_given, plain_reading, value_of, with_first, with_flag, with_given, with_option, with_value, with_word};

use crate::fault::Fault;
use std::alloc::{AllocError, Global};

/// An option of a command.
#[derive(Clone, Copy)]
pub enum CommandOption {
    /// How many threads read lines.
    Threads,
    /// Rows as a table for a terminal.
    Table,
    /// The path of a store.
    Store,
    /// How many answers the client has.
    From,
    /// A number of lines of a store.
    At,
    /// The head after them, in hexadecimal digits.
    Head,
    /// The answer to each line after it.
    Answers,
    /// The cause of each refusal that a line has by itself.
    Causes,
    /// How far the command is, on standard error.
    Progress,
}

impl CommandOption {
    /// Returns its name, without hyphens.
    pub fn name(self) -> &'static str
        ensures { result.now ≡ option_name self }
    {
        match self {
            CommandOption::Threads => "threads",
            CommandOption::Table => "table",
            CommandOption::Store => "store",
            CommandOption::From => "from",
            CommandOption::At => "at",
            CommandOption::Head => "head",
            CommandOption::Answers => "answers",
            CommandOption::Causes => "causes",
            CommandOption::Progress => "progress",
        }
    }

    /// Whether a value follows it.
    pub fn has_value(self) -> bool
        ensures { result ≡ has_value self }
    {
        match self {
            CommandOption::Threads
            | CommandOption::Store
            | CommandOption::From
            | CommandOption::At
            | CommandOption::Head => true,
            CommandOption::Table
            | CommandOption::Answers
            | CommandOption::Causes
            | CommandOption::Progress => false,
        }
    }

    /// Whether a value may follow it after `=`, where none has to.
    pub fn may_have_value(self) -> bool
        ensures { result ≡ may_have_value self }
    {
        matches!(self, CommandOption::Progress)
    }
}

/// An option that was given, and its value.
#[derive(Clone, Copy)]
pub struct Given<'a> {
    option: CommandOption,
    value: Option<&'a str>,
}

/// The arguments of a command.
#[derive(Drop)]
pub struct Arguments<'a> {
    words: Vec<&'a str>,
    given: Vec<Given<'a>>,
}

/// The arguments so far.
#[derive(Drop)]
struct Reading<'a> {
    arguments: Arguments<'a>,
    /// The option whose value is the next word.
    waiting: Option<CommandOption>,
    /// Whether `--` was read: no later word is an option.
    ended: bool,
}

// Whether the word is a hyphen with more after it.
fn is_flag(word: &str) -> bool
    ensures { result ≡ is_flag word.now }
{
    matches!(word.as_bytes(), [b'-', _, ..])
}

// What comes after the beginning of a text.
fn after<'a>(beginning: &str, text: &'a str) -> Option<&'a str>
    ensures { option_map (λ rest. rest.now) result ≡ after beginning.now text.now }
{
    text.strip_prefix(beginning)
}

// A flag without its hyphens.
fn body_of<'a>(word: &'a str) -> Option<&'a str>
    ensures { option_map (λ body. body.now) result ≡ body_of word.now }
{
    if word == "-table" {
        return Some("table");
    }
    after("--", word)
}

fn given_as<'a>(option: CommandOption, rest: &'a str) -> Option<Given<'a>>
    ensures { option_map plain_given result ≡ given_as option rest.now }
{
    if rest.is_empty() {
        return Some(Given {
            option,
            value: None,
        });
    }
    match after("=", rest) {
        Some(value) => Some(Given {
            option,
            value: Some(value),
        }),
        None => None,
    }
}

// The option of a flag without its hyphens, if it is this one.
fn given_by<'a>(option: CommandOption, body: &'a str) -> Option<Given<'a>>
    ensures { option_map plain_given result ≡ given_by option body.now }
{
    match after(option.name(), body) {
        Some(rest) => given_as(option, rest),
        None => None,
    }
}

// Whether the flag without its hyphens is this option.
fn is_given(option: CommandOption, body: &str) -> bool
    ensures { result ≡ is_given body.now option }
{
    match given_by(option, body) {
        Some(_) => true,
        None => false,
    }
}

// The first of these options that the flag without its hyphens is.
fn option_in(options: &[CommandOption], body: &str) -> Option<CommandOption>
    ensures { result ≡ find (is_given body.now) options.now }
{
    for option in options {
        if is_given(*option, body) {
            return Some(*option);
        }
    }
    None
}

// The option of a flag without its hyphens, of these options.
fn first_given<'a>(options: &[CommandOption], body: &'a str) -> Option<Given<'a>>
    ensures { option_map plain_given result ≡ first_given options.now body.now }
{
    match option_in(options, body) {
        Some(option) => given_by(option, body),
        None => None,
    }
}

fn is_given_as(option: CommandOption, given: &Given<'_>) -> bool
    ensures { result ≡ is_given_as option (plain_given given.now) }
{
    option.name() == given.option.name()
}

// The option of this kind among those that were given.
fn given_option<'a>(option: CommandOption, given: &[Given<'a>]) -> Option<Given<'a>>
    ensures { option_map plain_given result ≡ find (is_given_as option) (map plain_given given.now) }
{
    for one in given {
        if is_given_as(option, one) {
            return Some(*one);
        }
    }
    None
}

impl<'a> Arguments<'a> {
    /// Returns the words that are no options and no values of options.
    pub fn words(&self) -> &[&'a str]
        ensures { map (λ word. word.now) result.now ≡ (plain_arguments self.now).words }
    {
        self.words.as_slice()
    }

    /// Whether the option was given.
    pub fn has(&self, option: CommandOption) -> bool
        ensures { result ≡ is_some (given_option option (plain_arguments self.now)) }
    {
        given_option(option, self.given.as_slice()).is_some()
    }

    /// Returns the value of the option, if it was given.
    pub fn value_of(&self, option: CommandOption) -> Option<&'a str>
        ensures { option_map (λ value. value.now) result ≡ value_of option (plain_arguments self.now) }
    {
        match given_option(option, self.given.as_slice()) {
            Some(given) => given.value,
            None => None,
        }
    }

    /// Reads the words after the name of a command that has these options.
    ///
    /// # Errors
    ///
    /// `Usage` if an option is unknown, stands twice, lacks its value or has one that it does not take; `NoMemory`.
    pub fn read(
        alloc: Global,
        options: &[CommandOption],
        words: &'a [String],
    ) -> Result<Arguments<'a>, Fault<'static>>
        ensures read { IfOk result (λ arguments. arguments_of options.now (map string_bytes words.now) ≡ Some (plain_arguments arguments)) }
        ensures refused { IfErr result (λ fault. fault ≢ Fault.NoMemory → (fault ≡ Fault.Usage) × (arguments_of options.now (map string_bytes words.now) ≡ None)) }
    {
        let mut reading = Reading::begin(alloc);
        reading.add_all(options, words)?;
        if reading.waiting.is_some() {
            return Err(Fault::Usage);
        }
        Ok(reading.arguments)
    }
}

impl<'a> Reading<'a> {
    fn begin(alloc: Global) -> Reading<'a>
        ensures { plain_reading result ≡ nothing_read }
    {
        Reading {
            arguments: Arguments {
                words: Vec::new(alloc),
                given: Vec::new(alloc),
            },
            waiting: None,
            ended: false,
        }
    }

    fn add_word(&mut self, word: &'a str) -> Result<(), AllocError>
        ensures { OnOk result (plain_reading self.new ≡ with_word word.entry.now (plain_reading self.old)) }
    {
        self.arguments.words.push(word)?;
        Ok(())
    }

    // Adds an option that was not given before.
    fn add_given(&mut self, given: Given<'a>) -> Result<(), Fault<'static>>
        ensures added { OnOk result (with_given (plain_given given.entry) (plain_reading self.old) ≡ Some (plain_reading self.new)) }
        ensures refused { IfErr result (λ fault. fault ≢ Fault.NoMemory → (fault ≡ Fault.Usage) × (with_given (plain_given given.entry) (plain_reading self.old) ≡ None)) }
    {
        if self.arguments.has(given.option) {
            return Err(Fault::Usage);
        }
        self.arguments.given.push(given)?;
        self.waiting = None;
        Ok(())
    }

    // Adds an option with what its own word has.
    fn add_option(&mut self, given: Given<'a>) -> Result<(), Fault<'static>>
        ensures added { OnOk result (with_option (plain_reading self.old) (plain_given given.entry) ≡ Some (plain_reading self.new)) }
        ensures refused { IfErr result (λ fault. fault ≢ Fault.NoMemory → (fault ≡ Fault.Usage) × (with_option (plain_reading self.old) (plain_given given.entry) ≡ None)) }
    {
        if given.option.has_value() == given.value.is_some() || given.option.may_have_value() {
            return self.add_given(given);
        }
        if given.value.is_some() {
            return Err(Fault::Usage);
        }
        self.waiting = Some(given.option);
        Ok(())
    }

    fn add_flag(&mut self, options: &[CommandOption], word: &'a str) -> Result<(), Fault<'static>>
        ensures added { OnOk result (with_flag options.now (plain_reading self.old) word.entry.now ≡ Some (plain_reading self.new)) }
        ensures refused { IfErr result (λ fault. fault ≢ Fault.NoMemory → (fault ≡ Fault.Usage) × (with_flag options.now (plain_reading self.old) word.entry.now ≡ None)) }
    {
        if word == "--" {
            self.ended = true;
            return Ok(());
        }
        let Some(body) = body_of(word) else {
            return Err(Fault::Usage);
        };
        match first_given(options, body) {
            Some(given) => self.add_option(given),
            None => Err(Fault::Usage),
        }
    }

    fn add_value(&mut self, option: CommandOption, word: &'a str) -> Result<(), Fault<'static>>
        ensures added { OnOk result (with_value option (plain_reading self.old) word.entry.now ≡ Some (plain_reading self.new)) }
        ensures refused { IfErr result (λ fault. fault ≢ Fault.NoMemory → (fault ≡ Fault.Usage) × (with_value option (plain_reading self.old) word.entry.now ≡ None)) }
    {
        if is_flag(word) {
            return Err(Fault::Usage);
        }
        self.add_given(Given {
            option,
            value: Some(word),
        })
    }

    fn add_first(&mut self, options: &[CommandOption], word: &'a str) -> Result<(), Fault<'static>>
        ensures added { OnOk result (with_first options.now (plain_reading self.old) word.entry.now ≡ Some (plain_reading self.new)) }
        ensures refused { IfErr result (λ fault. fault ≢ Fault.NoMemory → (fault ≡ Fault.Usage) × (with_first options.now (plain_reading self.old) word.entry.now ≡ None)) }
    {
        if is_flag(word) {
            return self.add_flag(options, word);
        }
        self.add_word(word)?;
        Ok(())
    }

    fn add(&mut self, options: &[CommandOption], word: &'a str) -> Result<(), Fault<'static>>
        ensures added { OnOk result (next_reading options.now (plain_reading self.old) word.entry.now ≡ Some (plain_reading self.new)) }
        ensures refused { IfErr result (λ fault. fault ≢ Fault.NoMemory → (fault ≡ Fault.Usage) × (next_reading options.now (plain_reading self.old) word.entry.now ≡ None)) }
    {
        if self.ended {
            self.add_word(word)?;
            return Ok(());
        }
        match self.waiting {
            Some(option) => self.add_value(option, word),
            None => self.add_first(options, word),
        }
    }

    fn add_all(
        &mut self,
        options: &[CommandOption],
        words: &'a [String],
    ) -> Result<(), Fault<'static>>
        ensures added { OnOk result (arguments_after options.now (plain_reading self.old) (map string_bytes words.entry.now) ≡ arguments_after options.now (plain_reading self.new) []) }
        ensures refused { IfErr result (λ fault. fault ≢ Fault.NoMemory → (fault ≡ Fault.Usage) × (arguments_after options.now (plain_reading self.old) (map string_bytes words.entry.now) ≡ None)) }
    {
        for word in words {
            self.add(options, word.as_str())?;
        }
        Ok(())
    }
}
