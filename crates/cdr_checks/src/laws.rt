//! What follows from the definitions.

ghost use Rattle.cdr_checks.specs.Law.{FirstsAreFound, PostsAreChecked};
ghost use Rattle.cdr_checks.specs.Parties.{CommandsHaveParties};
ghost use Rattle.cdr_checks.specs.Tests.{AdmittedPassTheirTests, RefusedByTheFirst};

/// A CDR that is admitted is of a configured operator and provider in a configured currency, and has its operator's zone, and
/// as cost its price there, or none where it is a Credit CDR.
pub fn posts_are_checked()
    ensures { PostsAreChecked }
{}

/// A request that is admitted passes all its tests.
pub fn admitted_pass_their_tests()
    ensures { AdmittedPassTheirTests }
{}

/// One that is refused has the first refusal, by number, whose test does not hold.
pub fn refused_by_the_first()
    ensures { RefusedByTheFirst }
{}

/// The operator and the provider whose book and account an admitted command looks into are configured.
pub fn commands_have_parties()
    ensures { CommandsHaveParties }
{}

/// What is found of the tariffs, the charging periods and the volumes of a CDR is the first there.
pub fn firsts_are_found()
    ensures { FirstsAreFound }
{}
