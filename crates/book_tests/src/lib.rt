// Stories of a book over cash and guarantees, worked by hand.

#![tactic(auto)]

#[cfg(test)]
mod stories;
