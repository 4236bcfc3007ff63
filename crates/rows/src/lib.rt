// Rows of one leaf and the entries that they are striped into: definitions, and theorems about them.
#![tactic(auto)]

ghost use Rattle.rows.specs.Dremel.{StripeIsDremel};

// A theorem: the entries that rows are striped into are the levels that Dremel defines by their occurrences.
pub fn stripe_is_dremel<T>()
    ensures { StripeIsDremel T }
{}
