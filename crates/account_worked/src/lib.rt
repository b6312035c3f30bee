// A worked example of the account: a closed history, computed. No code of its own.
#![tactic(auto)]

// How many calls the example has.
pub fn calls() -> u32 {
    14
}
