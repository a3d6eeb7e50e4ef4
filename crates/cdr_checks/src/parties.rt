//! Whose book and whose account a command looks into.

use super::request::Command;
use ocpi_types::Party;

impl Command {
    ghost use Rattle.std.specs.Prelude.{◌≡◌};
    ghost use Rattle.cdr_checks.specs.Parties.{operator_of_command, provider_of_command};

    /// The operator whose book the command looks into; none where it is no book, or all books.
    pub fn operator(&self) -> Option<Party>
        ensures { result ≡ operator_of_command self.now }
    {
        match self {
            Command::PutTariff(tariff) => Some(tariff.operator),
            Command::Post(checked) => Some(checked.cdr().operator),
            Command::Find(find) => Some(find.operator),
            Command::PutToken(_)
            | Command::Authorize(_)
            | Command::Release(_)
            | Command::Close(_)
            | Command::Settle(_)
            | Command::Exposure(_)
            | Command::Statement(_) => None,
        }
    }

    /// The provider whose account the command looks into; none where it is no account.
    pub fn provider(&self) -> Option<Party>
        ensures { result ≡ provider_of_command self.now }
    {
        match self {
            Command::PutToken(token) => Some(token.provider),
            Command::Authorize(ask) => Some(ask.provider),
            Command::Release(release) => Some(release.provider),
            Command::Post(checked) => Some(checked.cdr().cdr_token.provider),
            Command::Settle(settlement) => Some(settlement.provider),
            Command::Exposure(ask) => Some(ask.provider),
            Command::PutTariff(_) | Command::Close(_) | Command::Find(_) | Command::Statement(_) =>
                { None }
        }
    }
}
