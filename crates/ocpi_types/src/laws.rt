//! What follows from the definitions.

ghost use Rattle.ocpi_types.specs.ContentDifference.{CdrsWithoutDifferenceAreSame, TariffsWithoutDifferenceAreSame};
ghost use Rattle.ocpi_types.specs.SameCdr.{SameCdrsAreEqualFolded};
ghost use Rattle.ocpi_types.specs.SameTariff.{SameTariffsAreEqualFolded};

/// Tariffs have the same content exactly where they are equal once letters are folded.
pub fn same_tariffs_are_equal_folded()
    ensures { SameTariffsAreEqualFolded }
{}

/// CDRs have the same content exactly where they are equal once letters are folded.
pub fn same_cdrs_are_equal_folded()
    ensures { SameCdrsAreEqualFolded }
{}

/// CDRs of one operator and id have the same content if and only if they differ in no member.
pub fn cdrs_without_difference_are_same()
    ensures { CdrsWithoutDifferenceAreSame }
{}

/// Tariffs of one operator, id and moment have the same content if and only if they differ in no member.
pub fn tariffs_without_difference_are_same()
    ensures { TariffsWithoutDifferenceAreSame }
{}
