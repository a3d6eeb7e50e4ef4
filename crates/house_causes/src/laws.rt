//! Laws of causes.

ghost use Rattle.house_causes.specs.Laws.{CausesHaveEvents, CausesNameTheirEvents, CausesSayTheirRefusals, EachRefusalHasACause, RefusingAnswersHaveCauses};

use cdr_checks::posts_are_checked;
use ocpi_types::laws::{
    cdrs_without_difference_are_same, same_tariffs_are_equal_folded,
    tariffs_without_difference_are_same,
};
use plain_house::{legal_cdrs_are_charged, legal_credits_are_taken_back};

/// States that the cause of a refusal says that refusal.
pub fn causes_say_their_refusals()
    ensures { CausesSayTheirRefusals }
{}

/// States that each refusal of a command that is admitted has a cause.
pub fn each_refusal_has_a_cause()
    ensures { EachRefusalHasACause }
{
    posts_are_checked();
    cdrs_without_difference_are_same();
    tariffs_without_difference_are_same();
}

/// States that the cause of a reply names an event if and only if an event gives its reason.
pub fn causes_have_events()
    ensures { CausesHaveEvents }
{
    posts_are_checked();
    cdrs_without_difference_are_same();
    tariffs_without_difference_are_same();
}

/// States that the event that a cause names gives it: on the events before it the command is not refused for this reason, and with it
/// the command is refused for this cause. With the event that stored a tariff of a CDR otherwise, the CDR is refused for that tariff, or
/// for an earlier one that a later event stores.
pub fn causes_name_their_events()
    ensures { CausesNameTheirEvents }
{
    tariffs_without_difference_are_same();
    same_tariffs_are_equal_folded();
    legal_cdrs_are_charged();
    legal_credits_are_taken_back();
}

/// States that the answers that refuse, BLOCKED and NO_CREDIT, have causes.
pub fn refusing_answers_have_causes()
    ensures { RefusingAnswersHaveCauses }
{}
