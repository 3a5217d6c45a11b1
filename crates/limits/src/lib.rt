// Tests at every limit of the lists that points, proofs and drafts are read from.
#![tactic(auto)]

#[cfg(test)]
mod tests;
