// Tests of problem files: what is read, what is refused, what is printed and what is written.
#![tactic(auto)]

#[cfg(test)]
mod tests;
