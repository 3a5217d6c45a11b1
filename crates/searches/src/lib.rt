// Tests of whole searches, of every denial that a search gives, and of its size.
#![tactic(auto)]

#[cfg(test)]
mod tests;
