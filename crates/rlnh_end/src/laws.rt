//! What follows from the functions of an end alone. These functions do nothing; their contracts are
//! the laws.

ghost use Rattle.rlnh_end.specs.Rows.{CallsFollowRules, HearingFollowsRules};

/// What an end says by itself, and what it leaves of the tables, is what the rule says, in a table
/// with one row a rule.
pub fn calls_follow_rules()
    ensures { CallsFollowRules }
{}

/// What an end makes of what it hears is what the rule says.
pub fn hearing_follows_rules()
    ensures { HearingFollowsRules }
{}
