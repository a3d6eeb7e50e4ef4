//! How the kind of a dimension is kept.

ghost use Rattle.std.specs.Prelude.{◌≡◌, IfOk};
ghost use Rattle.ocpi_types.specs.Dimension.{dimension_kind_of};
ghost use Rattle.ocpi_types.specs.Inner.Kept.{kind_of};
ghost use Rattle.ocpi_types.specs.declared.dimension.DimensionKind.TheVariants as kind;

use super::dimension::{DimensionKind, KindText};
use ocpi_json::same::Same;
use ocpi_json::text::Text;
use std::alloc::{AllocError, Global};
use std::marker::Model;

#[derive(Drop)]
enum Kept {
    Energy,
    ParkingTime,
    ReservationTime,
    Time,
    Current,
    EnergyExport,
    EnergyImport,
    MaxCurrent,
    MaxPower,
    MinCurrent,
    MinPower,
    Power,
    StateOfCharge,
    Text(Box<Text>),
}

/// The kind of a dimension, as a dimension keeps it. The words of OCPI 2.2.1 (CdrDimensionType enum) take no memory.
#[derive(Drop)]
pub struct KeptKind {
    kept: Kept,
}

impl Model for KeptKind {
    ghost use Rattle.ocpi_types.specs.Inner.Kept.{kind_of};
    ghost use Rattle.ocpi_types.specs.declared.dimension.DimensionKind.{DimensionKind};

    ghost Value = { DimensionKind };

    ghost view = { λ kind. kind_of kind.kept };
}

// What is kept of a text that is none of the four.
fn keep_text(alloc: Global, text: &str) -> Result<Kept, AllocError>
    ensures { IfOk result (λ kept. kind_of kept ≡ kind.Other text.now) }
{
    let kept = match text {
        "CURRENT" => Kept::Current,
        "ENERGY_EXPORT" => Kept::EnergyExport,
        "ENERGY_IMPORT" => Kept::EnergyImport,
        "MAX_CURRENT" => Kept::MaxCurrent,
        "MAX_POWER" => Kept::MaxPower,
        "MIN_CURRENT" => Kept::MinCurrent,
        "MIN_POWER" => Kept::MinPower,
        "POWER" => Kept::Power,
        "STATE_OF_CHARGE" => Kept::StateOfCharge,
        other => Kept::Text(Box::new(alloc, Text::new(alloc, other)?)?),
    };
    Ok(kept)
}

impl KeptKind {
    /// The kind that a text names.
    pub fn new(alloc: Global, text: &str) -> Result<KeptKind, AllocError>
        ensures { IfOk result (λ kept. kept ≡ dimension_kind_of text.now) }
    {
        let kept = match text {
            "ENERGY" => Kept::Energy,
            "PARKING_TIME" => Kept::ParkingTime,
            "RESERVATION_TIME" => Kept::ReservationTime,
            "TIME" => Kept::Time,
            other => keep_text(alloc, other)?,
        };
        Ok(KeptKind { kept })
    }

    /// The kind, without taking memory.
    pub fn get(&self) -> DimensionKind<'_>
        ensures { result ≡ self.now }
    {
        match &self.kept {
            Kept::Energy => DimensionKind::Energy,
            Kept::ParkingTime => DimensionKind::ParkingTime,
            Kept::ReservationTime => DimensionKind::ReservationTime,
            Kept::Time => DimensionKind::Time,
            Kept::Current => DimensionKind::Other(KindText::new("CURRENT")),
            Kept::EnergyExport => DimensionKind::Other(KindText::new("ENERGY_EXPORT")),
            Kept::EnergyImport => DimensionKind::Other(KindText::new("ENERGY_IMPORT")),
            Kept::MaxCurrent => DimensionKind::Other(KindText::new("MAX_CURRENT")),
            Kept::MaxPower => DimensionKind::Other(KindText::new("MAX_POWER")),
            Kept::MinCurrent => DimensionKind::Other(KindText::new("MIN_CURRENT")),
            Kept::MinPower => DimensionKind::Other(KindText::new("MIN_POWER")),
            Kept::Power => DimensionKind::Other(KindText::new("POWER")),
            Kept::StateOfCharge => DimensionKind::Other(KindText::new("STATE_OF_CHARGE")),
            Kept::Text(text) => DimensionKind::Other(KindText::new(text.as_str())),
        }
    }
}

impl Same for KeptKind {
    fn is_same(&self, other: &KeptKind) -> bool {
        self.get().is_same(&other.get())
    }
}
