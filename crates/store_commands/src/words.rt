//! The arguments of the commands.

ghost use Rattle.std.specs.Prelude.{◌≡◌, IfErr};

use command_line::{Arguments, CommandOption, Fault};

/// What `keep` is asked.
#[derive(Clone, Copy)]
pub struct KeepAsked<'a> {
    /// The configuration's path. Without one the store goes on under the configuration that it has.
    pub config: Option<&'a str>,
    /// The store's path.
    pub store: &'a str,
    /// How many answers the client has.
    pub from: Option<u64>,
    /// Whether refusals have their causes.
    pub causes: bool,
}

/// The number of these digits.
fn count_of(digits: &str) -> Result<u64, Fault<'static>>
    ensures { IfErr result (λ fault. fault ≡ Fault.Usage) }
{
    if digits.starts_with('+') {
        return Err(Fault::Usage);
    }
    match digits.parse::<u64>() {
        Ok(count) => Ok(count),
        Err(_) => Err(Fault::Usage),
    }
}

/// What `keep` is asked.
pub fn keep_asked<'a>(arguments: &Arguments<'a>) -> Result<KeepAsked<'a>, Fault<'static>>
    ensures { IfErr result (λ fault. fault ≡ Fault.Usage) }
{
    let (config, store) = match arguments.words() {
        [store] => (None, *store),
        [config, store] => (Some(*config), *store),
        _ => return Err(Fault::Usage),
    };
    let from = match arguments.value_of(CommandOption::From) {
        Some(digits) => Some(count_of(digits)?),
        None => None,
    };
    Ok(KeepAsked {
        config,
        store,
        from,
        causes: arguments.has(CommandOption::Causes),
    })
}

/// What `configure` is asked.
#[derive(Clone, Copy)]
pub struct ConfigureAsked<'a> {
    /// The path of the new configuration.
    pub config: &'a str,
    /// The name of the platform that asks for it.
    pub platform: &'a str,
}

/// What `configure` is asked.
pub fn configure_asked<'a>(arguments: &Arguments<'a>) -> Result<ConfigureAsked<'a>, Fault<'static>>
    ensures { IfErr result (λ fault. fault ≡ Fault.Usage) }
{
    let [config, platform] = arguments.words() else {
        return Err(Fault::Usage);
    };
    Ok(ConfigureAsked {
        config: *config,
        platform: *platform,
    })
}

/// What `log` is asked.
#[derive(Clone, Copy)]
pub struct LogAsked<'a> {
    /// The store's path.
    pub store: &'a str,
    /// Whether the answers are printed, too.
    pub answers: bool,
}

/// What `log` is asked.
pub fn log_asked<'a>(arguments: &Arguments<'a>) -> Result<LogAsked<'a>, Fault<'static>>
    ensures { IfErr result (λ fault. fault ≡ Fault.Usage) }
{
    Ok(LogAsked {
        store: only_argument(arguments)?,
        answers: arguments.has(CommandOption::Answers),
    })
}

/// What `check` is asked.
#[derive(Clone, Copy)]
pub struct CheckAsked<'a> {
    /// The store's path.
    pub store: &'a str,
    /// How many lines are to have the head, and that head.
    pub at: Option<u64>,
    pub head: Option<[u8; 32]>,
}

/// The head of these hexadecimal digits.
fn head_of(digits: &str) -> Result<[u8; 32], Fault<'static>>
    ensures { IfErr result (λ fault. fault ≡ Fault.Usage) }
{
    let mut head = [0; 32];
    if hex::decode_to_slice(digits, &mut head).is_err() {
        return Err(Fault::Usage);
    }
    Ok(head)
}

/// What `check` is asked. A head comes with a number of lines.
pub fn check_asked<'a>(arguments: &Arguments<'a>) -> Result<CheckAsked<'a>, Fault<'static>>
    ensures { IfErr result (λ fault. fault ≡ Fault.Usage) }
{
    let store = only_argument(arguments)?;
    match (
        arguments.value_of(CommandOption::Head),
        arguments.value_of(CommandOption::At),
    ) {
        (None, None) => Ok(CheckAsked {
            store,
            at: None,
            head: None,
        }),
        (Some(head), Some(at)) => Ok(CheckAsked {
            store,
            at: Some(count_of(at)?),
            head: Some(head_of(head)?),
        }),
        (Some(_), None) | (None, Some(_)) => Err(Fault::Usage),
    }
}

/// What `head` is asked.
#[derive(Clone, Copy)]
pub struct HeadAsked<'a> {
    /// The store's path.
    pub store: &'a str,
    /// After how many lines. Without it, after all.
    pub at: Option<u64>,
}

/// What `head` is asked.
pub fn head_asked<'a>(arguments: &Arguments<'a>) -> Result<HeadAsked<'a>, Fault<'static>>
    ensures { IfErr result (λ fault. fault ≡ Fault.Usage) }
{
    let at = match arguments.value_of(CommandOption::At) {
        Some(digits) => Some(count_of(digits)?),
        None => None,
    };
    Ok(HeadAsked {
        store: only_argument(arguments)?,
        at,
    })
}

/// What `upgrade` is asked.
#[derive(Clone, Copy)]
pub struct UpgradeAsked<'a> {
    /// The path of the store of format 1.
    pub store: &'a str,
    /// The path of the new store.
    pub new: &'a str,
}

/// What `upgrade` is asked.
pub fn upgrade_asked<'a>(arguments: &Arguments<'a>) -> Result<UpgradeAsked<'a>, Fault<'static>>
    ensures { IfErr result (λ fault. fault ≡ Fault.Usage) }
{
    let [store, new] = arguments.words() else {
        return Err(Fault::Usage);
    };
    Ok(UpgradeAsked {
        store: *store,
        new: *new,
    })
}

/// The only word of the arguments.
pub fn only_argument<'a>(arguments: &Arguments<'a>) -> Result<&'a str, Fault<'static>>
    ensures { IfErr result (λ fault. fault ≡ Fault.Usage) }
{
    match arguments.words() {
        [word] => Ok(*word),
        _ => Err(Fault::Usage),
    }
}
