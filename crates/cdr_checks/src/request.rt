use super::checked::Checked;
use ocpi_json::ci_text::CiText;
use ocpi_types::{Cdr, Currency, Party, Shared, Tariff, Token, TokenKind, TryCopy};
use std::alloc::{AllocError, Global};

/// An operator asks to authorise a token of a provider.
#[derive(Clone, Copy)]
pub struct Authorize {
    pub operator: Party,
    pub provider: Party,
    pub uid: CiText<36>,
    pub kind: TokenKind,
    pub currency: Currency,
}

/// An operator gives a hold back.
#[derive(Clone, Copy)]
pub struct Release {
    pub operator: Party,
    pub provider: Party,
    pub reference: CiText<36>,
}

/// A provider asks what it holds and owes in a currency.
#[derive(Clone, Copy)]
pub struct ExposureOf {
    pub provider: Party,
    pub currency: Currency,
}

/// An operator asks for a CDR by its id.
#[derive(Clone, Copy)]
pub struct Find {
    pub operator: Party,
    pub id: CiText<39>,
}

/// A hub closes the current period.
#[derive(Clone, Copy)]
pub struct Close {
    pub period: u64,
}

/// A provider has paid what it owed of a period in a currency, as a hub says.
#[derive(Clone, Copy)]
pub struct Settlement {
    pub provider: Party,
    pub currency: Currency,
    pub period: u64,
}

/// A party asks what it and its counterparts owe each other of a closed period.
#[derive(Clone, Copy)]
pub struct StatementOf {
    pub party: Party,
    pub period: u64,
}

/// What a request asks for.
#[derive(Drop)]
pub enum Ask {
    PutTariff(Shared<Tariff>),
    PutToken(Token),
    Authorize(Authorize),
    Release(Release),
    Post(Shared<Cdr>),
    Close(Close),
    Settle(Settlement),
    Exposure(ExposureOf),
    Find(Find),
    Statement(StatementOf),
}

/// What a line says: a platform asks for something.
#[derive(Drop)]
pub struct Request {
    pub platform: CiText<36>,
    pub ask: Ask,
}

/// What a house is told to do, once the request is admitted.
#[derive(Drop)]
pub enum Command {
    PutTariff(Shared<Tariff>),
    PutToken(Token),
    Authorize(Authorize),
    Release(Release),
    Post(Checked),
    Close(Close),
    Settle(Settlement),
    Exposure(ExposureOf),
    Find(Find),
    Statement(StatementOf),
}

impl TryCopy for Ask {
    fn copy(&self, alloc: Global) -> Result<Ask, AllocError> {
        match self {
            Ask::PutTariff(tariff) => Ok(Ask::PutTariff(tariff.copy(alloc)?)),
            Ask::PutToken(token) => Ok(Ask::PutToken(*token)),
            Ask::Authorize(authorize) => Ok(Ask::Authorize(*authorize)),
            Ask::Release(release) => Ok(Ask::Release(*release)),
            Ask::Exposure(exposure) => Ok(Ask::Exposure(*exposure)),
            Ask::Post(cdr) => Ok(Ask::Post(cdr.copy(alloc)?)),
            Ask::Close(close) => Ok(Ask::Close(*close)),
            Ask::Settle(settlement) => Ok(Ask::Settle(*settlement)),
            Ask::Find(find) => Ok(Ask::Find(*find)),
            Ask::Statement(statement) => Ok(Ask::Statement(*statement)),
        }
    }
}

impl TryCopy for Request {
    fn copy(&self, alloc: Global) -> Result<Request, AllocError> {
        let ask = self.ask.copy(alloc)?;
        Ok(Request {
            platform: self.platform,
            ask,
        })
    }
}

impl TryCopy for Command {
    fn copy(&self, alloc: Global) -> Result<Command, AllocError> {
        match self {
            Command::PutTariff(tariff) => Ok(Command::PutTariff(tariff.copy(alloc)?)),
            Command::PutToken(token) => Ok(Command::PutToken(*token)),
            Command::Authorize(authorize) => Ok(Command::Authorize(*authorize)),
            Command::Release(release) => Ok(Command::Release(*release)),
            Command::Exposure(exposure) => Ok(Command::Exposure(*exposure)),
            Command::Post(checked) => Ok(Command::Post(checked.copy(alloc)?)),
            Command::Close(close) => Ok(Command::Close(*close)),
            Command::Settle(settlement) => Ok(Command::Settle(*settlement)),
            Command::Find(find) => Ok(Command::Find(*find)),
            Command::Statement(statement) => Ok(Command::Statement(*statement)),
        }
    }
}
