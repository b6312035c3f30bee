// Demand 3, the account: a theory over the crate `protocol`, with no code of its own. See docs/ACCOUNT.md.
#![tactic(auto)]

// How many kinds of end a ticket can come to: accepted, burnt, ended, expired.
pub fn fates() -> u32 {
    4
}
