//! Tariffs that were read before.

ghost use Rattle.std.specs.Prelude.{◌≡◌, Ok, IfSome, length};
ghost use Rattle.ocpi_json.specs.Faults.{Finds};
ghost use Rattle.ocpi_json.specs.Members.{each};
ghost use Rattle.ocpi_json.specs.declared.name.Name.TheVariants as name;
ghost use Rattle.ocpi_types.specs.Tariff.{tariff_at};

use super::shared::Shared;
use super::tariff::Tariff;
use super::tariffs::Tariffs;
use ocpi_json::fields::FieldFault;
use ocpi_json::name::Name;
use ocpi_json::objects::{FromNodeIn, within_in};
use ocpi_json::sequence::Sequence;
use ocpi_json::{KeptValue, Node, Nodes, Step};
use std::alloc::Global;
use std::marker::Model;

// The tariffs that are remembered, and the tokens and the bytes of the texts of one of them.
const MOST_TARIFFS: usize = 64;

const MOST_TOKENS: usize = 2_048;

const MOST_TEXT_BYTES: usize = 16_384;

/// A tariff, and the value in which it was read.
#[derive(Drop)]
struct KnownTariff {
    fingerprint: u32,
    value: KeptValue,
    tariff: Shared<Tariff>,
    ghost is_read: { tariff_at value ≡ Ok tariff },
}

/// Tariffs that were read before, so that an equal value is not read again: up to 64 tariffs, each of at most 2,048 tokens and
/// 16,384 bytes of text. A further tariff takes the place of the oldest.
#[derive(Drop)]
pub struct KnownTariffs {
    known: Vec<KnownTariff>,
    remembers: bool,
    // the place of the oldest, if all places are taken
    oldest: usize,
}

// What it remembers is no part of what a contract sees.
impl Model for KnownTariffs {
    ghost use Rattle.std.specs.Prelude.{⊤, ◌<◌};

    ghost Value = { ⊤ };

    ghost view = { λ k. tt };

    ghost invariant = { λ k. k.oldest < 64 };
}

impl KnownTariffs {
    /// No tariffs yet.
    pub fn new(alloc: Global) -> KnownTariffs {
        KnownTariffs {
            known: Vec::new(alloc),
            remembers: true,
            oldest: 0,
        }
    }

    /// No tariffs, and none is remembered: each is read.
    pub fn none(alloc: Global) -> KnownTariffs {
        KnownTariffs {
            known: Vec::new(alloc),
            remembers: false,
            oldest: 0,
        }
    }

    /// Returns the tariff of a value that was read before.
    fn find(&self, fingerprint: u32, node: &Node) -> Option<&Shared<Tariff>>
        ensures { IfSome result (λ tariff. tariff_at node.now ≡ Ok tariff.now) }
    {
        for known in self.known.as_slice() {
            if known.fingerprint == fingerprint && known.value.is(node) {
                return Some(&known.tariff);
            }
        }
        None
    }

    /// Remembers a tariff, unless it is too large or an allocation fails.
    fn keep(&mut self, alloc: Global, fingerprint: u32, node: &Node, tariff: &Shared<Tariff>)
        requires { tariff_at node.now ≡ Ok tariff.now }
    {
        let Ok(value) = KeptValue::of(alloc, node) else {
            return;
        };
        if MOST_TOKENS < value.token_count() || MOST_TEXT_BYTES < value.text_bytes() {
            return;
        }
        let Ok(tariff) = tariff.share() else {
            return;
        };
        self.put(KnownTariff {
            fingerprint,
            value,
            tariff,
        });
    }

    fn put(&mut self, tariff: KnownTariff) {
        if self.known.len() < MOST_TARIFFS {
            let _ = self.known.push(tariff);
            return;
        }
        if let Some(oldest) = self.known.get_mut(self.oldest) {
            *oldest = tariff;
        }
        self.oldest = (self.oldest + 1) % MOST_TARIFFS;
    }

    /// Returns the tariff of a value: the remembered one if an equal value was read before, and otherwise it is read, and remembered. If
    /// an allocation to remember it fails, it is returned all the same.
    ///
    /// # Errors
    ///
    /// Those of `Tariff::from_node_in`.
    pub fn read(&mut self, alloc: Global, node: &Node) -> Result<Shared<Tariff>, FieldFault>
        ensures { Finds result (tariff_at node.now) }
    {
        if !self.remembers {
            return Shared::from_node_in(alloc, node);
        }
        let fingerprint = node.fingerprint();
        if let Some(tariff) = self.find(fingerprint, node) {
            return Ok(tariff.share()?);
        }
        let tariff = Shared::from_node_in(alloc, node)?;
        self.keep(alloc, fingerprint, node, &tariff);
        Ok(tariff)
    }

    fn read_one(&mut self, alloc: Global, mut nodes: Nodes) -> Result<Tariffs, FieldFault>
        requires { length nodes ≡ 1 }
        ensures { Finds result (each name.Tariffs tariff_at nodes.entry) }
    {
        let step = Step::item(Name::Tariffs, 0);
        let tariff = within_in(step, self.read(alloc, &nodes.next().unwrap()))?;
        Ok(Tariffs::one(tariff))
    }

    fn read_any(
        &mut self,
        alloc: Global,
        mut nodes: Nodes,
    ) -> Result<Sequence<Shared<Tariff>>, FieldFault>
        ensures { Finds result (each name.Tariffs tariff_at nodes.entry) }
    {
        let mut tariffs = Sequence::with_capacity(alloc, nodes.len())?;
        while let Some(node) = nodes.next() {
            let step = Step::item(Name::Tariffs, tariffs.as_slice().len());
            tariffs.push(within_in(step, self.read(alloc, &node))?)?;
        }
        Ok(tariffs)
    }

    /// Returns the tariffs of the items of the list in the member `tariffs`, in order.
    ///
    /// # Errors
    ///
    /// That of the first tariff that has one, and `NoMemory` if an allocation fails.
    pub fn read_each(&mut self, alloc: Global, nodes: Nodes) -> Result<Tariffs, FieldFault>
        ensures { Finds result (each name.Tariffs tariff_at nodes.entry) }
    {
        if nodes.len() == 1 {
            self.read_one(alloc, nodes)
        } else {
            Ok(Tariffs::of(self.read_any(alloc, nodes)?))
        }
    }
}
