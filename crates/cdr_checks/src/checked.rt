use ocpi_types::{Cdr, Cost, Shared, TryCopy, Zone};
use std::alloc::{AllocError, Global};
use std::marker::Model;

/// A CDR that is admitted, with its operator's time zone and what its session costs.
#[derive(Drop)]
pub struct Checked {
    cdr: Shared<Cdr>,
    zone: Zone,
    cost: Option<Cost>,
}

impl Model for Checked {
    ghost use Rattle.cdr_checks.specs.Checked.{Checked as PlainChecked, IsCostOf};

    ghost Value = { PlainChecked };

    ghost view = { λ checked. record { cdr = checked.cdr; zone = checked.zone; cost = checked.cost } };

    ghost invariant = { λ checked. IsCostOf checked.cost checked.cdr checked.zone };
}

impl Checked {
    ghost use Rattle.std.specs.Prelude.{◌≡◌};
    ghost use Rattle.cdr_checks.specs.Checked.{IsCostOf};

    pub(crate) fn new(cdr: Shared<Cdr>, zone: Zone, cost: Option<Cost>) -> Checked
        requires { IsCostOf cost cdr zone }
        ensures { result ≡ record { cdr = cdr; zone = zone; cost = cost } }
    {
        Checked { cdr, zone, cost }
    }

    pub fn cdr(&self) -> &Cdr
        ensures { result.now ≡ self.now.cdr }
    {
        &self.cdr
    }

    /// What the session costs: the price of the CDR in the zone, and none of a Credit CDR.
    pub fn cost(&self) -> Option<Cost>
        ensures value { result ≡ self.now.cost }
        ensures of_session { IsCostOf self.now.cost self.now.cdr self.now.zone }
    {
        self.cost
    }

    pub fn into_cdr(self) -> Shared<Cdr>
        ensures { result ≡ self.cdr }
    {
        self.cdr
    }
}

impl TryCopy for Checked {
    fn copy(&self, alloc: Global) -> Result<Checked, AllocError> {
        let cdr = self.cdr.copy(alloc)?;
        let zone = self.zone.clone()?;
        Ok(Checked {
            cdr,
            zone,
            cost: self.cost,
        })
    }
}
